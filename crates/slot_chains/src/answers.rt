//! What is answered of the slots of a definition, and of a method.

ghost use Rattle.std.specs.Prelude.{◌≡◌, ◌<◌, ◌-◌, ◌++◌, ◌&&◌, List, take, true, nat_eq, not, Some, length, slice_get, IfOk, OnOk};
ghost use Rattle.std.specs.HashMap.{get};
ghost use Rattle.std.specs.List.{list_any};
ghost use Rattle.std.specs.Option.{option_map_or};
ghost use Rattle.type_tree.specs.declared.definition.Impl.{Impl};
ghost use Rattle.type_pool.specs.Trees.{at_all, ids_below, Grows};
ghost use Rattle.method_slots.specs.Chains as chains;
ghost use Rattle.method_slots.specs.Faults as faults;
ghost use Rattle.method_slots.specs.Slots.{is_abstract};
ghost use Rattle.slot_chains.specs.Answers.{IsAnswer, OwnerWithin};
ghost use Rattle.slot_chains.specs.Levels.{AreNotes, IsLevel, NotesGrow, Stand};
ghost use Rattle.method_slots.specs.declared.opens.OpenMethod.{OpenMethod};

use crate::levels::Level;
use crate::notes::Notes;
use crate::rows::{number_in, row_fits};
use crate::walk::level_of;
use clr_base::{DefId, Memory, MethId};
use method_slots::SlotEntry;
use sqlite_items::Items;
use std::alloc::Global;
use type_pool::{Id, Pool, from_tree};
use type_tree::{Impl, World};

/// How many members a chain of parents has at most.
const LONGEST: u32 = 64;

/// What stands in the slots of a definition, or why it has none. BadOverride comes before NoMethod.
#[derive(Drop)]
pub enum SlotAnswer {
    /// What stands in each slot, in the order of their numbers.
    Found(Items<SlotEntry>),
    /// A virtual method without newslot takes the slot of a final method; or a MethodImpl row has a body
    /// that is no virtual method of the definition, or a declaration that is no virtual method of a parent
    /// or interface of it.
    BadOverride,
    /// The definition isn't abstract, and an abstract method stands in a slot.
    NoMethod,
}

/// Whether the method in a slot is abstract.
fn is_abstract_at(world: &World, entry: &SlotEntry) -> bool
    ensures { result ≡ faults.stands_with is_abstract world.now (Some entry.now) }
{
    entry.method.0 < world.method_count() && world.method(entry.method).flags & 0x400 != 0
}

fn any_abstract(world: &World, entries: &[SlotEntry]) -> bool
    ensures { result ≡ list_any (λ entry. faults.stands_with is_abstract world.now (Some entry)) entries.now }
{
    entries.iter().any(|entry| is_abstract_at(world, entry))
}

/// Whether a definition that isn't abstract has an abstract method in a slot.
fn lacks_method(world: &World, id: DefId, entries: &[SlotEntry]) -> bool
    requires exists { id.0 < length world.now.defs }
    requires entries { Stand entries.now (chains.slots chains.longest_chain world.now id.0) }
    ensures { result ≡ faults.lacks_method world.now id.0 }
{
    world.def(id).flags & 0x80 == 0 && any_abstract(world, entries)
}

/// Whether a MethodImpl row doesn't fit a definition whose parents and interfaces these are.
fn row_fails(
    pool: &mut Pool,
    alloc: Global,
    world: &World,
    id: DefId,
    types: &[Id],
    row: &Impl,
) -> Result<bool, Memory>
    requires types { ids_below (length pool.old) types.now ≡ true }
    ensures grows { Grows pool.old pool.new }
    ensures fails { IfOk result (λ fails. fails ≡ not (chains.owns world.now id.0 row.now.body && chains.is_declared world.now (at_all pool.old types.now) row.now)) }
{
    let owner = from_tree(&row.owner, pool, alloc)?;
    Ok(!row_fits(world, pool, id, types, owner, row))
}

/// Whether any of some rows doesn't.
fn rows_fail(
    pool: &mut Pool,
    alloc: Global,
    world: &World,
    id: DefId,
    types: &[Id],
    rows: &[Impl],
) -> Result<bool, Memory>
    requires types { ids_below (length pool.old) types.now ≡ true }
    ensures grows { Grows pool.old pool.new }
    ensures fails { IfOk result (λ fails. fails ≡ list_any (λ (row : Impl). not (chains.owns world.now id.0 row.body && chains.is_declared world.now (at_all pool.old types.now) row)) rows.now) }
{
    for row in rows {
        if row_fails(pool, alloc, world, id, types, row)? {
            return Ok(true);
        }
    }
    Ok(false)
}

/// The parents of a definition, and then these types.
fn types_of(alloc: Global, level: &Level, interfaces: &[Id]) -> Result<Items<Id>, Memory>
    requires { 0 < length level.now.chain }
    ensures { IfOk result (λ types. types ≡ take (length level.now.chain - 1) level.now.chain ++ interfaces.now) }
{
    let chain = level.chain.as_slice();
    let mut types = Items::from_slice(alloc, &chain[..chain.len() - 1])?;
    types.append(Items::from_slice(alloc, interfaces)?)?;
    Ok(types)
}

/// Whether an override of a definition is bad.
fn bad_override(
    pool: &mut Pool,
    alloc: Global,
    world: &World,
    id: DefId,
    level: &Level,
    interfaces: &[Id],
) -> Result<bool, Memory>
    requires exists { id.0 < length world.now.defs }
    requires level { (os : List OpenMethod) × IsLevel world.now pool.old os id.0 level.now }
    requires within { chains.IsWithin world.now id.0 }
    requires interfaces { ids_below (length pool.old) interfaces.now ≡ true }
    ensures grows { Grows pool.old pool.new }
    ensures bad { IfOk result (λ bad. bad ≡ faults.bad_override world.now id.0 (at_all pool.old interfaces.now)) }
{
    if level.finals {
        return Ok(true);
    }
    let types = types_of(alloc, level, interfaces)?;
    rows_fail(
        pool,
        alloc,
        world,
        id,
        types.as_slice(),
        world.def(id).impls.as_slice(),
    )
}

/// What stands in the slots of a definition that has these interfaces, as trees in its own generic
/// parameters: BadOverride and NoMethod exactly where a fault holds. What was found of the definition
/// stands at `place` in the notes.
pub fn slots_at(
    pool: &mut Pool,
    alloc: Global,
    world: &World,
    notes: &Notes,
    id: DefId,
    place: u32,
    interfaces: &[Id],
) -> Result<SlotAnswer, Memory>
    requires exists { id.0 < length world.now.defs }
    requires within { chains.IsWithin world.now id.0 }
    requires notes { AreNotes world.now pool.old notes.now }
    requires place { get nat_eq notes.now.places id.0 ≡ Some place }
    requires interfaces { ids_below (length pool.old) interfaces.now ≡ true }
    ensures grows { Grows pool.old pool.new }
    ensures answer { IfOk result (λ answer. IsAnswer world.now id.0 (at_all pool.old interfaces.now) answer) }
{
    let level = &notes.levels.as_slice()[place as usize];
    if bad_override(pool, alloc, world, id, level, interfaces)? {
        return Ok(SlotAnswer::BadOverride);
    }
    if lacks_method(world, id, level.entries.as_slice()) {
        return Ok(SlotAnswer::NoMethod);
    }
    let entries = Items::from_slice(alloc, level.entries.as_slice())?;
    Ok(SlotAnswer::Found(entries))
}

/// The number of the slot that a method takes: None exactly where the method is an interface's, is static,
/// isn't virtual, or is owned by no definition. The notes serve many calls.
pub fn slot_number_in(
    pool: &mut Pool,
    alloc: Global,
    world: &World,
    notes: &mut Notes,
    method: MethId,
) -> Result<Option<u32>, Memory>
    requires exists { method.0 < length world.now.methods }
    requires within { OwnerWithin world.now method.0 }
    requires notes { AreNotes world.now pool.old notes.old }
    ensures grows { Grows pool.old pool.new }
    ensures notes { OnOk result (AreNotes world.now pool.new notes.new) }
    ensures kept { OnOk result (NotesGrow notes.old notes.new) }
    ensures number { IfOk result (λ number. number ≡ chains.slot_number world.now method.0) }
{
    let owner = world.method(method).def;
    if owner.0 >= world.def_count() {
        return Ok(None);
    }
    level_of(pool, alloc, world, notes, owner, LONGEST)?;
    Ok(number_in(world, notes, owner, method.0))
}

/// The number of the slot that a method takes, without notes.
pub fn slot_number(alloc: Global, world: &World, method: MethId) -> Result<Option<u32>, Memory>
    requires exists { method.0 < length world.now.methods }
    requires within { OwnerWithin world.now method.0 }
    ensures { IfOk result (λ number. number ≡ chains.slot_number world.now method.0) }
{
    let mut pool = Pool::new(alloc);
    let mut notes = Notes::new(alloc);
    slot_number_in(&mut pool, alloc, world, &mut notes, method)
}
