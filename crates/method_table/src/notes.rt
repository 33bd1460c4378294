//! What was found of types, which serves again.

ghost use Rattle.std.specs.Prelude.{◌≡◌, ◌<◌, List, length, nat_eq, Some, IfOk, OnOk};
ghost use Rattle.std.specs.HashMap.{get};
ghost use Rattle.type_tree.specs.declared.tree.Ty.{Ty};
ghost use Rattle.type_tree.specs.World.{Facts};
ghost use Rattle.type_pool.specs.Trees.{at, Grows};
ghost use Rattle.method_slots.specs.Chains.{IsWithin};
ghost use Rattle.slot_chains.specs.Levels.{AreNotes};
ghost use Rattle.method_table.specs.Notes.{AreTableNotes, IsFoundOf};

use clr_base::{DefId, Memory};
use field_layout::{LayoutAnswer, Notes as LayoutNotes, layout_in};
use interface_maps::{MapNotes, map_of};
use slot_chains::{Notes as SlotNotes, level_of};
use std::alloc::Global;
use std::collections::HashMap;
use type_pool::{Id, Memo, Pool};
use type_tree::World;

/// How many members a chain of parents has at most.
pub(crate) const LONGEST: u32 = 64;

/// Notes on the types of one world, over one pool.
#[derive(Drop)]
pub struct TableNotes {
    /// Canonical forms.
    pub canonical: Memo,
    /// What fields take, and where classes end.
    pub layouts: LayoutNotes,
    /// Slots of definitions.
    pub slots: SlotNotes,
    /// Interfaces of definitions.
    pub maps: MapNotes,
}

impl TableNotes {
    /// No notes.
    pub fn new(alloc: Global) -> TableNotes
        ensures { (w : Facts) (ts : List Ty) → AreTableNotes w ts result }
    {
        TableNotes {
            canonical: HashMap::new(alloc),
            layouts: LayoutNotes::new(alloc),
            slots: SlotNotes::new(alloc),
            maps: MapNotes::new(alloc),
        }
    }
}

/// The layout of a type, and where its definition stands in the notes.
#[derive(Drop)]
pub struct Found {
    pub layout: LayoutAnswer,
    pub slots: u32,
    pub maps: u32,
}

/// What is found of a type that instantiates a definition.
pub(crate) fn look_up(
    pool: &mut Pool,
    alloc: Global,
    world: &World,
    notes: &mut TableNotes,
    id: Id,
    def: DefId,
) -> Result<Found, Memory>
    requires tree { id.0 < length pool.old }
    requires exists { def.0 < length world.now.defs }
    requires within { IsWithin world.now def.0 }
    requires notes { AreTableNotes world.now pool.old notes.old }
    ensures grows { Grows pool.old pool.new }
    ensures notes { OnOk result (AreTableNotes world.now pool.new notes.new) }
    ensures found { IfOk result (λ found. IsFoundOf world.now notes.new (at pool.old id) def.0 found) }
{
    let layout = layout_in(pool, alloc, world, &mut notes.layouts, id)?;
    let slots = level_of(pool, alloc, world, &mut notes.slots, def, LONGEST)?;
    let maps = map_of(
        pool,
        alloc,
        world,
        &notes.slots,
        &mut notes.maps,
        def,
        LONGEST,
    )?;
    Ok(Found {
        layout,
        slots,
        maps,
    })
}
