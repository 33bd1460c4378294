//! What is answered of the slots and of the interfaces of a definition.

ghost use Rattle.std.specs.Prelude.{◌≡◌, ◌<◌, nat_eq, Some, length, IfOk, OnOk};
ghost use Rattle.std.specs.HashMap.{get};
ghost use Rattle.type_pool.specs.Trees.{Grows};
ghost use Rattle.method_slots.specs.Chains as chains;
ghost use Rattle.slot_chains.specs.Answers.{IsAnswer};
ghost use Rattle.slot_chains.specs.Levels.{AreNotes, NotesGrow};
ghost use Rattle.interface_maps.specs.Choices.{answers, lacks_answer as lacks_answer_of};
ghost use Rattle.interface_maps.specs.Found.{AreFound};
ghost use Rattle.interface_maps.specs.Maps.{interfaces_of, AreMaps, IsMap, MapsGrow};
ghost use Rattle.interface_maps.specs.Verdicts.{AreNoted, IsMapAnswer, IsSlots};

use crate::answers::{Interface, copy_found, lacks_answer};
use crate::maps::{MapLevel, MapNotes};
use crate::walk::map_of;
use clr_base::{DefId, Memory};
use slot_chains::{Notes, SlotAnswer, level_of, slots_at};
use sqlite_items::Items;
use std::alloc::Global;
use type_pool::Pool;
use type_tree::World;

/// How many members a chain of parents has at most.
const LONGEST: u32 = 64;

/// The interfaces of a definition with their choices, or why it has none. BadOverride comes first.
#[derive(Drop)]
pub enum MapAnswer {
    /// The interfaces in order.
    Found(Items<Interface>),
    /// A virtual method without newslot takes the slot of a final method, or a MethodImpl row doesn't fit
    /// the definition, its parents and its interfaces.
    BadOverride,
    /// The definition isn't abstract, and an abstract method stands in a slot or nothing answers a method
    /// of an interface.
    NoMethod,
}

/// What stands in the slots of a definition whose interfaces were found.
fn with_list(
    pool: &mut Pool,
    alloc: Global,
    world: &World,
    slots: &Notes,
    id: DefId,
    at: u32,
    map: &MapLevel,
) -> Result<SlotAnswer, Memory>
    requires exists { id.0 < length world.now.defs }
    requires within { chains.IsWithin world.now id.0 }
    requires slots { AreNotes world.now pool.old slots.now }
    requires at { get nat_eq slots.now.places id.0 ≡ Some at }
    requires map { IsMap world.now pool.old id.0 map.now }
    ensures grows { Grows pool.old pool.new }
    ensures answer { IfOk result (λ answer. IsAnswer world.now id.0 (interfaces_of world.now id.0) answer) }
{
    match &map.list {
        Some(ids) => slots_at(pool, alloc, world, slots, id, at, ids.as_slice()),
        None => slots_at(pool, alloc, world, slots, id, at, &[]),
    }
}

/// What is answered of the slots, where this is answered of overrides and abstract methods, and `lacks` tells
/// whether nothing answers a method of an interface.
fn with_choices(world: &World, id: DefId, answer: SlotAnswer, lacks: bool) -> SlotAnswer
    requires answer { IsAnswer world.now id.0 (interfaces_of world.now id.0) answer }
    requires lacks { lacks ≡ lacks_answer_of world.now id.0 }
    ensures { IsSlots world.now id.0 result }
{
    let _ = world;
    let _ = id;
    match answer {
        SlotAnswer::Found(entries) => {
            if lacks {
                SlotAnswer::NoMethod
            } else {
                SlotAnswer::Found(entries)
            }
        }
        SlotAnswer::BadOverride => SlotAnswer::BadOverride,
        SlotAnswer::NoMethod => SlotAnswer::NoMethod,
    }
}

/// What stands in the slots of a definition of which this was found.
fn slots_with(
    pool: &mut Pool,
    alloc: Global,
    world: &World,
    slots: &Notes,
    id: DefId,
    at: u32,
    map: &MapLevel,
) -> Result<SlotAnswer, Memory>
    requires exists { id.0 < length world.now.defs }
    requires within { chains.IsWithin world.now id.0 }
    requires slots { AreNotes world.now pool.old slots.now }
    requires at { get nat_eq slots.now.places id.0 ≡ Some at }
    requires map { IsMap world.now pool.old id.0 map.now }
    ensures grows { Grows pool.old pool.new }
    ensures answer { IfOk result (λ answer. IsSlots world.now id.0 answer) }
{
    let lacks = lacks_answer(world, pool, id, map.found.as_slice());
    let answer = with_list(pool, alloc, world, slots, id, at, map)?;
    Ok(with_choices(world, id, answer, lacks))
}

/// The interfaces of a definition of which this was found, where this is answered of its slots.
fn map_with(
    alloc: Global,
    world: &World,
    pool: &Pool,
    id: DefId,
    answer: SlotAnswer,
    found: &[Interface],
) -> Result<MapAnswer, Memory>
    requires answer { IsSlots world.now id.0 answer }
    requires found { AreFound pool.now found.now (answers chains.longest_chain world.now id.0) }
    ensures { IfOk result (λ answer. IsMapAnswer world.now pool.now id.0 answer) }
{
    let _ = world;
    let _ = pool;
    let _ = id;
    match answer {
        SlotAnswer::Found(_) => Ok(MapAnswer::Found(copy_found(alloc, found)?)),
        SlotAnswer::BadOverride => Ok(MapAnswer::BadOverride),
        SlotAnswer::NoMethod => Ok(MapAnswer::NoMethod),
    }
}

/// Where what is found of the slots of a definition stands, and where what is found of its interfaces.
fn places_of(
    pool: &mut Pool,
    alloc: Global,
    world: &World,
    slots: &mut Notes,
    maps: &mut MapNotes,
    id: DefId,
) -> Result<(u32, u32), Memory>
    requires exists { id.0 < length world.now.defs }
    requires within { chains.IsWithin world.now id.0 }
    requires slots { AreNotes world.now pool.old slots.old }
    requires maps { AreMaps world.now pool.old maps.old }
    ensures grows { Grows pool.old pool.new }
    ensures slots { OnOk result (AreNotes world.now pool.new slots.new) }
    ensures slots_kept { OnOk result (NotesGrow slots.old slots.new) }
    ensures maps { OnOk result (AreMaps world.now pool.new maps.new) }
    ensures maps_kept { OnOk result (MapsGrow maps.old maps.new) }
    ensures found { IfOk result (λ at. AreNoted slots.new maps.new id.0 at) }
{
    let at = level_of(pool, alloc, world, slots, id, LONGEST)?;
    let place = map_of(pool, alloc, world, slots, maps, id, LONGEST)?;
    Ok((at, place))
}

/// What stands in the slots of a definition: BadOverride and NoMethod exactly where a fault holds. The notes
/// serve many calls.
pub fn slots_in(
    pool: &mut Pool,
    alloc: Global,
    world: &World,
    slots: &mut Notes,
    maps: &mut MapNotes,
    id: DefId,
) -> Result<SlotAnswer, Memory>
    requires exists { id.0 < length world.now.defs }
    requires within { chains.IsWithin world.now id.0 }
    requires slots { AreNotes world.now pool.old slots.old }
    requires maps { AreMaps world.now pool.old maps.old }
    ensures grows { Grows pool.old pool.new }
    ensures slots { OnOk result (AreNotes world.now pool.new slots.new) }
    ensures slots_kept { OnOk result (NotesGrow slots.old slots.new) }
    ensures maps { OnOk result (AreMaps world.now pool.new maps.new) }
    ensures maps_kept { OnOk result (MapsGrow maps.old maps.new) }
    ensures answer { IfOk result (λ answer. IsSlots world.now id.0 answer) }
{
    let (at, place) = places_of(pool, alloc, world, slots, maps, id)?;
    let map = &maps.levels.as_slice()[place as usize];
    slots_with(pool, alloc, world, slots, id, at, map)
}

/// The interfaces of a definition with what answers their methods: BadOverride and NoMethod exactly where a
/// fault holds. The trees are the pool's, and the notes serve many calls.
pub fn interface_map_in(
    pool: &mut Pool,
    alloc: Global,
    world: &World,
    slots: &mut Notes,
    maps: &mut MapNotes,
    id: DefId,
) -> Result<MapAnswer, Memory>
    requires exists { id.0 < length world.now.defs }
    requires within { chains.IsWithin world.now id.0 }
    requires slots { AreNotes world.now pool.old slots.old }
    requires maps { AreMaps world.now pool.old maps.old }
    ensures grows { Grows pool.old pool.new }
    ensures slots { OnOk result (AreNotes world.now pool.new slots.new) }
    ensures slots_kept { OnOk result (NotesGrow slots.old slots.new) }
    ensures maps { OnOk result (AreMaps world.now pool.new maps.new) }
    ensures maps_kept { OnOk result (MapsGrow maps.old maps.new) }
    ensures answer { IfOk result (λ answer. IsMapAnswer world.now pool.new id.0 answer) }
{
    let (at, place) = places_of(pool, alloc, world, slots, maps, id)?;
    let map = &maps.levels.as_slice()[place as usize];
    let answer = slots_with(pool, alloc, world, slots, id, at, map)?;
    map_with(alloc, world, pool, id, answer, map.found.as_slice())
}

/// What stands in the slots of a definition, without notes: BadOverride and NoMethod exactly where a fault
/// holds.
pub fn slots(alloc: Global, world: &World, id: DefId) -> Result<SlotAnswer, Memory>
    requires exists { id.0 < length world.now.defs }
    requires within { chains.IsWithin world.now id.0 }
    ensures { IfOk result (λ answer. IsSlots world.now id.0 answer) }
{
    let mut pool = Pool::new(alloc);
    let mut slots = Notes::new(alloc);
    let mut maps = MapNotes::new(alloc);
    slots_in(&mut pool, alloc, world, &mut slots, &mut maps, id)
}

/// The interfaces of a definition with what answers their methods, without notes, and the pool that their
/// trees are in: BadOverride and NoMethod exactly where a fault holds.
pub fn interface_map(alloc: Global, world: &World, id: DefId) -> Result<(Pool, MapAnswer), Memory>
    requires exists { id.0 < length world.now.defs }
    requires within { chains.IsWithin world.now id.0 }
    ensures { IfOk result (λ map. IsMapAnswer world.now map.0 id.0 map.1) }
{
    let mut pool = Pool::new(alloc);
    let mut slots = Notes::new(alloc);
    let mut maps = MapNotes::new(alloc);
    let answer = interface_map_in(&mut pool, alloc, world, &mut slots, &mut maps, id)?;
    Ok((pool, answer))
}
