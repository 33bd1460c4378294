//! Public virtual methods along a chain of parents.

ghost use Rattle.std.specs.Prelude.{◌≡◌, ◌<◌, true, length, OnOk};
ghost use Rattle.type_pool.specs.Trees.{at, at_all, ids_below, Grows};
ghost use Rattle.method_slots.specs.OpenSets.{OpensGrow};
ghost use Rattle.slot_chains.specs.Levels.{IsNoted, IsOwner, NumbersNoted, OwnersNoted};
ghost use Rattle.interface_maps.specs.Choices as spec;
ghost use Rattle.interface_maps.specs.Publics.{GainPublics};

use crate::publics::add_publics;
use clr_base::{DefId, Memory};
use interface_lists::head_of;
use method_slots::OpenSet;
use slot_chains::Notes;
use std::alloc::Global;
use std::collections::HashMap;
use type_pool::{Id, Pool};
use type_tree::World;

/// Notes the public virtual methods of a definition whose generic parameters these types are.
fn add_own(
    pool: &mut Pool,
    alloc: Global,
    set: &mut OpenSet,
    numbers: &mut HashMap<u32, u32>,
    world: &World,
    notes: &Notes,
    def: DefId,
    types: &[Id],
) -> Result<(), Memory>
    requires exists { def.0 < length world.now.defs }
    requires noted { NumbersNoted world.now notes.now }
    requires here { IsNoted notes.now.places def.0 }
    requires types { ids_below (length pool.old) types.now ≡ true }
    ensures grows { Grows pool.old pool.new }
    ensures set_grows { OpensGrow set.old set.new }
    ensures gains { OnOk result (GainPublics pool.old set.old numbers.old pool.new set.new numbers.new (spec.publics_in world.now (at_all pool.old types.now) def.0)) }
{
    world.whole();
    let first = world.def(def).first_method;
    match notes.place(def) {
        Some(place) => {
            let level = &notes.levels.as_slice()[place as usize];
            let given = level.numbers.as_slice();
            add_publics(pool, alloc, set, numbers, world, first, types, given)
        }
        None => Ok(()),
    }
}

/// Notes the public virtual methods of the definition that a member of a chain instantiates, with the
/// member's arguments put in.
fn add_member(
    pool: &mut Pool,
    alloc: Global,
    set: &mut OpenSet,
    numbers: &mut HashMap<u32, u32>,
    world: &World,
    notes: &Notes,
    member: Id,
) -> Result<(), Memory>
    requires member { member.0 < length pool.old }
    requires noted { NumbersNoted world.now notes.now }
    requires owner { IsOwner notes.now.places (at pool.old member) }
    ensures grows { Grows pool.old pool.new }
    ensures set_grows { OpensGrow set.old set.new }
    ensures gains { OnOk result (GainPublics pool.old set.old numbers.old pool.new set.new numbers.new (spec.member_publics world.now (at pool.old member))) }
{
    match head_of(alloc, world, pool, member)? {
        Some((def, types)) => add_own(
            pool,
            alloc,
            set,
            numbers,
            world,
            notes,
            def,
            types.as_slice(),
        ),
        None => Ok(()),
    }
}

/// Notes the public virtual methods of the members of a chain, the last member first.
pub(crate) fn add_chain(
    pool: &mut Pool,
    alloc: Global,
    set: &mut OpenSet,
    numbers: &mut HashMap<u32, u32>,
    world: &World,
    notes: &Notes,
    chain: &[Id],
) -> Result<(), Memory>
    requires within { ids_below (length pool.old) chain.now ≡ true }
    requires noted { NumbersNoted world.now notes.now }
    requires owners { OwnersNoted notes.now.places (at_all pool.old chain.now) }
    ensures grows { Grows pool.old pool.new }
    ensures set_grows { OpensGrow set.old set.new }
    ensures gains { OnOk result (GainPublics pool.old set.old numbers.old pool.new set.new numbers.new (spec.publics_of world.now (at_all pool.old chain.now))) }
{
    let mut left = chain.len();
    while left > 0 {
        left -= 1;
        add_member(pool, alloc, set, numbers, world, notes, chain[left])?;
    }
    Ok(())
}
