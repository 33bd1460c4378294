//! The walk along the chain of parents.

ghost use Rattle.std.specs.Prelude.{◌≡◌, ◌<◌, ◌≤◌, ◌+◌, [], ℕ, map, nat_eq, true, Some, None, length, slice_get, IfOk, OnOk};
ghost use Rattle.std.specs.HashMap.{get};
ghost use Rattle.type_tree.specs.Kinds.{head_of};
ghost use Rattle.type_pool.specs.Trees.{at_all, ids_below, Grows};
ghost use Rattle.method_slots.specs.Chains as chains;
ghost use Rattle.slot_chains.specs.Levels.{AreNotes, IsNoted};
ghost use Rattle.interface_maps.specs.Choices as spec;
ghost use Rattle.interface_maps.specs.Found.{AreFound};
ghost use Rattle.interface_maps.specs.Inherited.{AreAbove};
ghost use Rattle.interface_maps.specs.Maps.{above_of, own_of, AreMaps, IsAboveMap, IsBase, IsMap, IsMapAt, MapsGrow};

use crate::answers::Interface;
use crate::choices::answer_all;
use crate::knowing::known_of;
use crate::maps::{MapLevel, MapNotes};
use clr_base::{DefId, Memory};
use interface_lists::{inherited, list_of};
use method_slots::{OpenSet, parent_def};
use slot_chains::Notes;
use sqlite_items::Items;
use std::alloc::Global;
use type_pool::{Id, Pool};
use type_tree::{Def, World};

/// These interfaces of a definition, and what answers their methods, where the parent hands on `trees`, of
/// which this was found.
fn answer_list(
    pool: &mut Pool,
    alloc: Global,
    world: &World,
    slots: &Notes,
    id: DefId,
    def: &Def,
    trees: &[Id],
    found: &[Interface],
    list: &[Id],
) -> Result<Items<Interface>, Memory>
    requires base { IsBase world.now pool.old slots.now id.0 def.now }
    requires above { AreAbove pool.old trees.now found.now (above_of world.now def.now) }
    requires list { ids_below (length pool.old) list.now ≡ true }
    ensures grows { Grows pool.old pool.new }
    ensures found { IfOk result (λ fs. AreFound pool.new fs (map (spec.answered world.now id.0 def.now (own_of world.now def.now) (above_of world.now def.now)) (at_all pool.old list.now))) }
{
    let mut set = OpenSet::new(alloc);
    let known = known_of(pool, alloc, &mut set, world, slots, id, def, trees, found)?;
    answer_all(pool, alloc, &mut set, world, id, def, &known, found, list)
}

/// What is found of a definition whose parent has these interfaces, of which this was found.
fn with_above(
    pool: &mut Pool,
    alloc: Global,
    world: &World,
    slots: &Notes,
    id: DefId,
    def: &Def,
    above: &[Id],
    found: &[Interface],
) -> Result<MapLevel, Memory>
    requires base { IsBase world.now pool.old slots.now id.0 def.now }
    requires above { IsAboveMap world.now pool.old id.0 def.now above.now found.now }
    ensures grows { Grows pool.old pool.new }
    ensures level { IfOk result (λ level. IsMap world.now pool.new id.0 level) }
{
    let list = list_of(pool, alloc, world, def, above)?;
    let trees = inherited(pool, alloc, def, above)?;
    match list {
        Some(ids) => {
            let trees = trees.as_slice();
            let all = ids.as_slice();
            let found = answer_list(pool, alloc, world, slots, id, def, trees, found, all)?;
            Ok(MapLevel {
                list: Some(ids),
                found,
            })
        }
        None => Ok(MapLevel {
            list: None,
            found: Items::new(alloc),
        }),
    }
}

/// What is found of a definition, where what was found of its parent stands at `place`.
fn from_parent(
    pool: &mut Pool,
    alloc: Global,
    world: &World,
    slots: &Notes,
    maps: &MapNotes,
    id: DefId,
    def: &Def,
    parent: DefId,
    place: u32,
) -> Result<MapLevel, Memory>
    requires base { IsBase world.now pool.old slots.now id.0 def.now }
    requires parent { head_of def.now.parent ≡ Some parent.0 }
    requires place { IsMapAt world.now pool.old maps.now.levels parent.0 place }
    ensures grows { Grows pool.old pool.new }
    ensures level { IfOk result (λ level. IsMap world.now pool.new id.0 level) }
{
    let _ = parent;
    let level = &maps.levels.as_slice()[place as usize];
    match &level.list {
        Some(above) => with_above(
            pool,
            alloc,
            world,
            slots,
            id,
            def,
            above.as_slice(),
            level.found.as_slice(),
        ),
        None => Ok(MapLevel {
            list: None,
            found: Items::new(alloc),
        }),
    }
}

/// What is found of a definition that has no parent.
fn at_root(
    pool: &mut Pool,
    alloc: Global,
    world: &World,
    slots: &Notes,
    id: DefId,
    def: &Def,
) -> Result<MapLevel, Memory>
    requires base { IsBase world.now pool.old slots.now id.0 def.now }
    requires parent { head_of def.now.parent ≡ None }
    ensures grows { Grows pool.old pool.new }
    ensures level { IfOk result (λ level. IsMap world.now pool.new id.0 level) }
{
    with_above(pool, alloc, world, slots, id, def, &[], &[])
}

/// A definition, whose parent is a definition of the world.
fn def_of(world: &World, id: DefId) -> &Def
    requires { id.0 < length world.now.defs }
    ensures here { slice_get world.now.defs id.0 ≡ Some result.now }
    ensures parent { (p : ℕ) → head_of result.now.parent ≡ Some p → p < length world.now.defs }
{
    world.def(id)
}

/// Where what is found of a definition, whose slots are noted, stands in the notes: what was noted before,
/// or is found now, and so of the members of its chain of parents, of which there are at most `room`. Each
/// definition is looked at once for all calls with these notes. Recurses as deep as the chain is long, and
/// as the trees are deep.
pub fn map_of(
    pool: &mut Pool,
    alloc: Global,
    world: &World,
    slots: &Notes,
    maps: &mut MapNotes,
    id: DefId,
    room: u32,
) -> Result<u32, Memory>
    requires exists { id.0 < length world.now.defs }
    requires within { chains.chain_within room world.now id.0 ≡ true }
    requires room { room ≤ 64 }
    requires slots { AreNotes world.now pool.old slots.now }
    requires noted { IsNoted slots.now.places id.0 }
    requires maps { AreMaps world.now pool.old maps.old }
    ensures grows { Grows pool.old pool.new }
    ensures maps { OnOk result (AreMaps world.now pool.new maps.new) }
    ensures kept { OnOk result (MapsGrow maps.old maps.new) }
    ensures found { IfOk result (λ place. get nat_eq maps.new.places id.0 ≡ Some place) }
{
    if let Some(place) = maps.place(id) {
        return Ok(place);
    }
    let def = def_of(world, id);
    match parent_def(def) {
        Some(parent) => {
            let place = map_of(pool, alloc, world, slots, maps, parent, room - 1)?;
            let level = from_parent(pool, alloc, world, slots, maps, id, def, parent, place)?;
            maps.keep(id, level)
        }
        None => {
            let level = at_root(pool, alloc, world, slots, id, def)?;
            maps.keep(id, level)
        }
    }
}
