//! What a definition declares, followed.

ghost use Rattle.std.specs.Prelude.{◌≡◌, ◌<◌, nat_eq, true, false, length, map, IfOk};
ghost use Rattle.std.specs.List.{list_any};
ghost use Rattle.type_pool.specs.Trees.{at, ids_below, Grows};
ghost use Rattle.interface_lists.specs.Lists as spec;
ghost use Rattle.interface_lists.specs.Walks.{id_of, members, IdsAre, NextIs};

use crate::declared::{names_interface, push_all, push_declared};
use crate::listed::{add, has, ids_in};
use clr_base::Memory;
use indexmap::IndexSet;
use sqlite_items::Items;
use std::alloc::Global;
use type_pool::{Id, Pool};
use type_tree::{Def, World};

/// How many interfaces a list has at most.
pub(crate) const LONGEST: usize = 4096;

/// Whether a tree is neither too deep nor too heavy for a list.
pub(crate) fn is_small(pool: &Pool, id: Id) -> bool
    requires { id.0 < length pool.now }
    ensures { result ≡ spec.is_small (at pool.now id) }
{
    let mark = pool.mark(id);
    mark.depth <= 64 && mark.weight <= 65_536
}

/// Whether a tree is that of an interface which isn't listed yet.
fn is_new(pool: &Pool, world: &World, found: &IndexSet<u32>, id: Id) -> bool
    requires id { id.0 < length pool.now }
    requires found { ids_below (length pool.now) (map id_of found.now.keys) ≡ true }
    ensures test { result ≡ spec.is_new world.now (at pool.now id) (members pool.now found.now.keys) }
    ensures unlisted { result ≡ true → list_any (nat_eq id.0) found.now.keys ≡ false }
{
    pool.each_once();
    names_interface(world, pool, id) && !has(found, id)
}

/// Whether a list has room for a tree.
fn may_join(pool: &Pool, found: &IndexSet<u32>, id: Id) -> bool
    requires { id.0 < length pool.now }
    ensures { result ≡ spec.may_join (at pool.now id) (members pool.now found.now.keys) }
{
    found.len() < LONGEST && is_small(pool, id)
}

/// Takes trees off a stack up to the first that is an interface and isn't listed.
fn next_new(pool: &Pool, world: &World, found: &IndexSet<u32>, todo: &mut Items<Id>) -> Option<Id>
    requires found { ids_below (length pool.now) (map id_of found.now.keys) ≡ true }
    requires todo { ids_below (length pool.now) todo.old ≡ true }
    ensures { NextIs world.now pool.now found.now.keys todo.old todo.new result }
{
    while let Some(id) = todo.pop() {
        if is_new(pool, world, found, id) {
            return Some(id);
        }
    }
    None
}

/// The interfaces that a definition itself declares, in row order, each followed by its own list,
/// without repeats (ECMA-335 II.12.2); None where the list would pass 4,096 trees, or a tree the depth
/// 64 or the weight 65,536. The arguments of the pool's trees stay the definition's own generic
/// parameters.
pub fn own_list(
    pool: &mut Pool,
    alloc: Global,
    world: &World,
    def: &Def,
) -> Result<Option<Items<Id>>, Memory>
    ensures grows { Grows pool.old pool.new }
    ensures list { IfOk result (λ ids. IdsAre pool.new ids (spec.own_list world.now def.now)) }
{
    let mut found = IndexSet::new(alloc);
    let mut todo = Items::new(alloc);
    push_all(pool, alloc, def.interfaces.as_slice(), &[], &mut todo)?;
    while let Some(id) = next_new(pool, world, &found, &mut todo) {
        if !may_join(pool, &found, id) {
            return Ok(None);
        }
        add(&mut found, id)?;
        push_declared(pool, alloc, world, id, &mut todo)?;
    }
    Ok(Some(ids_in(alloc, &found)?))
}
