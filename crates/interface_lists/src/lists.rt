//! The whole lists of interfaces, along the chains of parents.

ghost use Rattle.std.specs.Prelude.{◌≡◌, [], true, length, map, IfOk, OnOk};
ghost use Rattle.std.specs.List.{list_all};
ghost use Rattle.type_tree.specs.Context.{arguments};
ghost use Rattle.type_tree.specs.Subst.{subst_all};
ghost use Rattle.type_pool.specs.Jobs.{SpellAll};
ghost use Rattle.type_pool.specs.Trees.{at_all, ids_below, Grows};
ghost use Rattle.method_slots.specs.Chains.{longest_chain};
ghost use Rattle.interface_lists.specs.Lists as spec;
ghost use Rattle.interface_lists.specs.Walks.{IdsAre, Joins, id_of};

use crate::listed::{add, ids_in};
use crate::walk::{LONGEST, is_small, own_list};
use clr_base::{DefId, Memory};
use indexmap::IndexSet;
use method_slots::{arguments_of, parent_def, put_in_all};
use sqlite_items::Items;
use std::alloc::Global;
use type_pool::{Id, Pool};
use type_tree::{Def, Ty, World};

/// How many members a chain of parents has at most.
const LONGEST_CHAIN: u32 = 64;

/// The list of a parent with the parent's arguments put in.
fn handed(pool: &mut Pool, alloc: Global, parent: &Ty, above: &[Id]) -> Result<Items<Id>, Memory>
    requires { ids_below (length pool.old) above.now ≡ true }
    ensures grows { Grows pool.old pool.new }
    ensures spells { IfOk result (λ ids. SpellAll pool.new ids (subst_all (arguments parent.now) [] (at_all pool.old above.now))) }
{
    let types = arguments_of(pool, alloc, parent)?;
    put_in_all(pool, alloc, above, types.as_slice())
}

/// Whether no tree is too deep or too heavy for a list.
fn all_small(pool: &Pool, ids: &[Id]) -> bool
    requires { ids_below (length pool.now) ids.now ≡ true }
    ensures { result ≡ list_all spec.is_small (at_all pool.now ids.now) }
{
    for id in ids {
        if !is_small(pool, *id) {
            return false;
        }
    }
    true
}

/// Lists trees that aren't listed yet, in order.
fn add_all(pool: &Pool, list: &mut IndexSet<u32>, ids: &[Id]) -> Result<(), Memory>
    requires list { ids_below (length pool.now) (map id_of list.old.keys) ≡ true }
    requires ids { ids_below (length pool.now) ids.now ≡ true }
    ensures { OnOk result (Joins pool.now list.old.keys list.new.keys (at_all pool.now ids.now)) }
{
    pool.each_once();
    for id in ids {
        add(list, *id)?;
    }
    Ok(())
}

/// A list and another, each tree once; None where that passes the bounds.
fn join(
    pool: &Pool,
    alloc: Global,
    inherited: &[Id],
    own: &[Id],
) -> Result<Option<Items<Id>>, Memory>
    requires inherited { ids_below (length pool.now) inherited.now ≡ true }
    requires own { ids_below (length pool.now) own.now ≡ true }
    ensures { IfOk result (λ ids. IdsAre pool.now ids (spec.bounded (spec.joined (spec.joined [] (at_all pool.now inherited.now)) (at_all pool.now own.now)))) }
{
    let mut found = IndexSet::new(alloc);
    add_all(pool, &mut found, inherited)?;
    add_all(pool, &mut found, own)?;
    let ids = ids_in(alloc, &found)?;
    if ids.len() > LONGEST {
        return Ok(None);
    }
    if !all_small(pool, ids.as_slice()) {
        return Ok(None);
    }
    Ok(Some(ids))
}

/// A definition's list, where this is what it has of its parent.
fn with_own(
    pool: &mut Pool,
    alloc: Global,
    world: &World,
    def: &Def,
    inherited: Items<Id>,
) -> Result<Option<Items<Id>>, Memory>
    requires { ids_below (length pool.old) inherited ≡ true }
    ensures grows { Grows pool.old pool.new }
    ensures list { IfOk result (λ ids. IdsAre pool.new ids (spec.with_own world.now def.now (at_all pool.old inherited))) }
{
    match own_list(pool, alloc, world, def)? {
        Some(own) => join(pool, alloc, inherited.as_slice(), own.as_slice()),
        None => Ok(None),
    }
}

/// The interfaces that a definition has of its parent, whose list this is.
pub fn inherited(
    pool: &mut Pool,
    alloc: Global,
    def: &Def,
    above: &[Id],
) -> Result<Items<Id>, Memory>
    requires { ids_below (length pool.old) above.now ≡ true }
    ensures grows { Grows pool.old pool.new }
    ensures spells { IfOk result (λ ids. SpellAll pool.new ids (spec.from_parent def.now.parent (at_all pool.old above.now))) }
{
    match &def.parent {
        Some(parent) => handed(pool, alloc, parent, above),
        None => Ok(Items::new(alloc)),
    }
}

/// The list of a definition whose parent's list this is: None where it passes the bounds.
pub fn list_of(
    pool: &mut Pool,
    alloc: Global,
    world: &World,
    def: &Def,
    above: &[Id],
) -> Result<Option<Items<Id>>, Memory>
    requires { ids_below (length pool.old) above.now ≡ true }
    ensures grows { Grows pool.old pool.new }
    ensures list { IfOk result (λ ids. IdsAre pool.new ids (spec.with_own world.now def.now (spec.from_parent def.now.parent (at_all pool.old above.now)))) }
{
    let given = inherited(pool, alloc, def, above)?;
    with_own(pool, alloc, world, def, given)
}

/// The list of a definition whose chain of parents has at most `room` members. Recurses as deep as the
/// chain is long.
fn list_within(
    pool: &mut Pool,
    alloc: Global,
    world: &World,
    id: DefId,
    room: u32,
) -> Result<Option<Items<Id>>, Memory>
    ensures grows { Grows pool.old pool.new }
    ensures list { IfOk result (λ ids. IdsAre pool.new ids (spec.interfaces room world.now id.0)) }
{
    if room == 0 {
        return Ok(Some(Items::new(alloc)));
    }
    if id.0 >= world.def_count() {
        return Ok(Some(Items::new(alloc)));
    }
    let def = world.def(id);
    match parent_def(def) {
        Some(parent) => match list_within(pool, alloc, world, parent, room - 1)? {
            Some(above) => list_of(pool, alloc, world, def, above.as_slice()),
            None => Ok(None),
        },
        None => list_of(pool, alloc, world, def, &[]),
    }
}

/// The interfaces of a definition as trees in its own generic parameters (ECMA-335 II.10.2, II.12.2): those
/// of its parent with the parent's arguments put in, and then those that it declares, in row order, each
/// followed by its own list, without repeats. Whatever isn't an instantiation of an interface is passed
/// over. None where the list of the definition, or of a parent, passes 4,096 trees, or a tree the depth 64
/// or the weight 65,536. A chain of parents is followed up to 64 members.
pub fn interface_list(
    pool: &mut Pool,
    alloc: Global,
    world: &World,
    id: DefId,
) -> Result<Option<Items<Id>>, Memory>
    ensures grows { Grows pool.old pool.new }
    ensures list { IfOk result (λ ids. IdsAre pool.new ids (spec.interfaces longest_chain world.now id.0)) }
{
    list_within(pool, alloc, world, id, LONGEST_CHAIN)
}
