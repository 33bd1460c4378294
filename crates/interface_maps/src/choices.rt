//! The choices for the methods of interfaces, in order.

ghost use Rattle.std.specs.Prelude.{◌≡◌, ◌<◌, ◌+◌, ◌≤◌, ◌++◌, ◌∷◌, [], true, map, cond, filter, None, length, IfOk, OnOk};
ghost use Rattle.std.specs.List.{range_with_len};
ghost use Rattle.type_tree.specs.Context.{arguments};
ghost use Rattle.type_pool.specs.Trees.{at, at_all, ids_below, Grows};
ghost use Rattle.method_slots.specs.OpenSets.{OpensGrow};
ghost use Rattle.method_slots.specs.Slots.{is_interface as is_interface_of};
ghost use Rattle.interface_maps.specs.Choices as spec;
ghost use Rattle.interface_maps.specs.Found.{AreFound, IsFound};
ghost use Rattle.interface_maps.specs.Maps.{above_of, each_of, own_of, Knows};

use crate::answers::Interface;
use crate::known::{Known, choice_of};
use clr_base::{DefId, Memory, MethId};
use interface_lists::head_of;
use method_slots::{OpenSet, is_interface, takes_slot};
use sqlite_items::Items;
use std::alloc::Global;
use type_pool::{Id, Pool};
use type_tree::{Def, World};

/// The choice for a method, which stands at `j` in an interface: none in a definition that is an interface
/// itself. These are the interface's arguments.
fn choice_in(
    pool: &mut Pool,
    alloc: Global,
    set: &mut OpenSet,
    world: &World,
    id: DefId,
    def: &Def,
    known: &Known,
    found: &[Interface],
    tree: Id,
    types: &[Id],
    j: usize,
    method: MethId,
) -> Result<Option<u32>, Memory>
    requires known { Knows world.now id.0 def.now pool.old set.old known.now found.now }
    requires tree { tree.0 < length pool.old }
    requires types { ids_below (length pool.old) types.now ≡ true }
    requires arguments { arguments (at pool.old tree) ≡ at_all pool.old types.now }
    requires exists { method.0 < length world.now.methods }
    ensures grows { Grows pool.old pool.new }
    ensures set_grows { OpensGrow set.old set.new }
    ensures choice { IfOk result (λ answer. answer ≡ each_of world.now id.0 def.now (at pool.old tree) j method.0) }
{
    let _ = id;
    if is_interface(def) {
        return Ok(None);
    }
    choice_of(
        pool, alloc, set, world, known, found, tree, types, j, method,
    )
}

/// Adds the choice for a method, where it is virtual and isn't static.
fn add_choice(
    pool: &mut Pool,
    alloc: Global,
    set: &mut OpenSet,
    world: &World,
    id: DefId,
    def: &Def,
    known: &Known,
    found: &[Interface],
    tree: Id,
    types: &[Id],
    method: MethId,
    done: &mut Items<Option<u32>>,
) -> Result<(), Memory>
    requires known { Knows world.now id.0 def.now pool.old set.old known.now found.now }
    requires tree { tree.0 < length pool.old }
    requires types { ids_below (length pool.old) types.now ≡ true }
    requires arguments { arguments (at pool.old tree) ≡ at_all pool.old types.now }
    requires exists { method.0 < length world.now.methods }
    ensures grows { Grows pool.old pool.new }
    ensures set_grows { OpensGrow set.old set.new }
    ensures added { OnOk result (done.new ≡ done.old ++ spec.each (each_of world.now id.0 def.now (at pool.old tree)) (length done.old) (filter (spec.is_method world.now) (method.0 ∷ []))) }
{
    if !takes_slot(world.method(method)) {
        return Ok(());
    }
    let j = done.len();
    let choice = choice_in(
        pool, alloc, set, world, id, def, known, found, tree, types, j, method,
    )?;
    Ok(done.push(choice)?)
}

/// The choices for the virtual instance methods of a run, in order.
fn choices_in(
    pool: &mut Pool,
    alloc: Global,
    set: &mut OpenSet,
    world: &World,
    id: DefId,
    def: &Def,
    known: &Known,
    found: &[Interface],
    tree: Id,
    types: &[Id],
    first: u32,
    count: u32,
) -> Result<Items<Option<u32>>, Memory>
    requires known { Knows world.now id.0 def.now pool.old set.old known.now found.now }
    requires tree { tree.0 < length pool.old }
    requires types { ids_below (length pool.old) types.now ≡ true }
    requires arguments { arguments (at pool.old tree) ≡ at_all pool.old types.now }
    requires within { first + count ≤ length world.now.methods }
    ensures grows { Grows pool.old pool.new }
    ensures set_grows { OpensGrow set.old set.new }
    ensures choices { IfOk result (λ cs. cs ≡ spec.each (each_of world.now id.0 def.now (at pool.old tree)) 0 (filter (spec.is_method world.now) (range_with_len first count))) }
{
    world.whole();
    let mut done = Items::new(alloc);
    for i in 0..count {
        add_choice(
            pool,
            alloc,
            set,
            world,
            id,
            def,
            known,
            found,
            tree,
            types,
            MethId(first + i),
            &mut done,
        )?;
    }
    Ok(done)
}

/// The choices for the methods of the interface that a tree instantiates.
fn choices_of(
    pool: &mut Pool,
    alloc: Global,
    set: &mut OpenSet,
    world: &World,
    id: DefId,
    def: &Def,
    known: &Known,
    found: &[Interface],
    tree: Id,
) -> Result<Items<Option<u32>>, Memory>
    requires known { Knows world.now id.0 def.now pool.old set.old known.now found.now }
    requires tree { tree.0 < length pool.old }
    ensures grows { Grows pool.old pool.new }
    ensures set_grows { OpensGrow set.old set.new }
    ensures choices { IfOk result (λ cs. cs ≡ spec.choices world.now id.0 def.now (own_of world.now def.now) (above_of world.now def.now) (at pool.old tree)) }
{
    match head_of(alloc, world, pool, tree)? {
        Some((at, types)) => {
            let face = world.def(at);
            choices_in(
                pool,
                alloc,
                set,
                world,
                id,
                def,
                known,
                found,
                tree,
                types.as_slice(),
                face.first_method,
                face.methods,
            )
        }
        None => Ok(Items::new(alloc)),
    }
}

/// An interface of a definition, and what answers its methods.
fn answer_one(
    pool: &mut Pool,
    alloc: Global,
    set: &mut OpenSet,
    world: &World,
    id: DefId,
    def: &Def,
    known: &Known,
    found: &[Interface],
    tree: Id,
) -> Result<Interface, Memory>
    requires known { Knows world.now id.0 def.now pool.old set.old known.now found.now }
    requires tree { tree.0 < length pool.old }
    ensures grows { Grows pool.old pool.new }
    ensures set_grows { OpensGrow set.old set.new }
    ensures found { IfOk result (λ f. IsFound pool.new f (spec.answered world.now id.0 def.now (own_of world.now def.now) (above_of world.now def.now) (at pool.old tree))) }
{
    let choices = choices_of(pool, alloc, set, world, id, def, known, found, tree)?;
    Ok(Interface { tree, choices })
}

/// The interfaces of a definition, in order, and what answers their methods.
pub(crate) fn answer_all(
    pool: &mut Pool,
    alloc: Global,
    set: &mut OpenSet,
    world: &World,
    id: DefId,
    def: &Def,
    known: &Known,
    found: &[Interface],
    list: &[Id],
) -> Result<Items<Interface>, Memory>
    requires known { Knows world.now id.0 def.now pool.old set.old known.now found.now }
    requires list { ids_below (length pool.old) list.now ≡ true }
    ensures grows { Grows pool.old pool.new }
    ensures set_grows { OpensGrow set.old set.new }
    ensures found { IfOk result (λ fs. AreFound pool.new fs (map (spec.answered world.now id.0 def.now (own_of world.now def.now) (above_of world.now def.now)) (at_all pool.old list.now))) }
{
    let mut done = Items::new(alloc);
    for i in 0..list.len() {
        let one = answer_one(pool, alloc, set, world, id, def, known, found, list[i])?;
        done.push(one)?;
    }
    Ok(done)
}
