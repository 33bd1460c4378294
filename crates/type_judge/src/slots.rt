//! Faults of overrides and of methods that nothing answers.

ghost use Rattle.std.specs.Prelude.{◌≡◌, ◌<◌, nat_eq, Some, length, IfOk, OnOk};
ghost use Rattle.std.specs.HashMap.{get, Updates};
ghost use Rattle.type_pool.specs.Trees.{at, Grows};
ghost use Rattle.interface_maps.specs.Verdicts.{IsSlots};
ghost use Rattle.method_slots.specs.Chains.{IsWithin};
ghost use Rattle.type_judge.specs.Notes.{AreNotes};
ghost use Rattle.type_judge.specs.Table as spec;

use crate::notes::Notes;
use clr_base::{DefId, Memory};
use interface_maps::slots_in;
use key_faults::def_in;
use load_events::LoadFault;
use slot_chains::{SlotAnswer, chain_within};
use std::alloc::Global;
use std::collections::HashMap;
use type_pool::{Id, Pool};
use type_tree::World;

fn noted(notes: &HashMap<u32, Option<LoadFault>>, def: DefId) -> Option<Option<LoadFault>>
    ensures { result ≡ get nat_eq notes.now def.0 }
{
    match notes.get(&def.0) {
        Some(found) => Some(*found),
        None => None,
    }
}

fn put_note(
    notes: &mut HashMap<u32, Option<LoadFault>>,
    def: DefId,
    found: Option<LoadFault>,
) -> Result<Option<LoadFault>, Memory>
    ensures value { IfOk result (λ same. same ≡ found) }
    ensures put { OnOk result (Updates nat_eq notes.old notes.new def.0 (Some found)) }
{
    match notes.insert(def.0, found) {
        Ok(_) => Ok(found),
        Err(_) => Err(Memory),
    }
}

fn answered(world: &World, def: DefId, answer: &SlotAnswer) -> Option<LoadFault>
    requires within { IsWithin world.now def.0 }
    requires slots { IsSlots world.now def.0 answer.now }
    ensures { result ≡ spec.slot_fault world.now def }
{
    let _ = world;
    let _ = def;
    match answer {
        SlotAnswer::Found(_) => None,
        SlotAnswer::BadOverride => Some(LoadFault::BadOverride),
        SlotAnswer::NoMethod => Some(LoadFault::NoMethod),
    }
}

/// The fault of the slots and interfaces of a definition, found anew.
fn find_fault(
    pool: &mut Pool,
    alloc: Global,
    world: &World,
    notes: &mut Notes,
    def: DefId,
) -> Result<Option<LoadFault>, Memory>
    requires def { def.0 < length world.now.defs }
    requires notes { AreNotes world.now pool.old notes.old }
    ensures grows { Grows pool.old pool.new }
    ensures notes { OnOk result (AreNotes world.now pool.new notes.new) }
    ensures fault { IfOk result (λ found. found ≡ spec.slot_fault world.now def) }
{
    if !chain_within(world, def) {
        return Ok(None);
    }
    let answer = slots_in(pool, alloc, world, &mut notes.slots, &mut notes.maps, def)?;
    Ok(answered(world, def, &answer))
}

/// The fault of the slots and interfaces of a definition.
fn slot_fault(
    pool: &mut Pool,
    alloc: Global,
    world: &World,
    notes: &mut Notes,
    def: DefId,
) -> Result<Option<LoadFault>, Memory>
    requires def { def.0 < length world.now.defs }
    requires notes { AreNotes world.now pool.old notes.old }
    ensures grows { Grows pool.old pool.new }
    ensures notes { OnOk result (AreNotes world.now pool.new notes.new) }
    ensures fault { IfOk result (λ found. found ≡ spec.slot_fault world.now def) }
{
    if let Some(found) = noted(&notes.slot_faults, def) {
        return Ok(found);
    }
    let found = find_fault(pool, alloc, world, notes, def)?;
    put_note(&mut notes.slot_faults, def, found)
}

fn is_bad_override(found: Option<LoadFault>) -> bool
    ensures { result ≡ spec.is_bad_override found }
{
    match found {
        Some(LoadFault::BadOverride) => true,
        _ => false,
    }
}

fn is_no_method(found: Option<LoadFault>) -> bool
    ensures { result ≡ spec.is_no_method found }
{
    match found {
        Some(LoadFault::NoMethod) => true,
        _ => false,
    }
}

/// Whether an override of the definition is bad.
pub(crate) fn has_bad_override(
    pool: &mut Pool,
    alloc: Global,
    world: &World,
    notes: &mut Notes,
    id: Id,
) -> Result<bool, Memory>
    requires id { id.0 < length pool.old }
    requires notes { AreNotes world.now pool.old notes.old }
    ensures grows { Grows pool.old pool.new }
    ensures notes { OnOk result (AreNotes world.now pool.new notes.new) }
    ensures is { IfOk result (λ found. found ≡ spec.has_bad_override world.now (at pool.old id)) }
{
    match def_in(world, pool, id) {
        Some(def) => Ok(is_bad_override(slot_fault(pool, alloc, world, notes, def)?)),
        None => Ok(false),
    }
}

/// Whether a method of the definition is missing.
pub(crate) fn has_no_method(
    pool: &mut Pool,
    alloc: Global,
    world: &World,
    notes: &mut Notes,
    id: Id,
) -> Result<bool, Memory>
    requires id { id.0 < length pool.old }
    requires notes { AreNotes world.now pool.old notes.old }
    ensures grows { Grows pool.old pool.new }
    ensures notes { OnOk result (AreNotes world.now pool.new notes.new) }
    ensures is { IfOk result (λ found. found ≡ spec.has_no_method world.now (at pool.old id)) }
{
    match def_in(world, pool, id) {
        Some(def) => Ok(is_no_method(slot_fault(pool, alloc, world, notes, def)?)),
        None => Ok(false),
    }
}
