//! What was found of definitions and of trees before.

ghost use Rattle.std.specs.Prelude.{◌≡◌, List};
ghost use Rattle.type_tree.specs.World.{Facts};
ghost use Rattle.type_tree.specs.declared.tree.Ty.{Ty as Tree};
ghost use Rattle.type_judge.specs.Notes.{AreNotes};

use interface_maps::MapNotes;
use key_faults::Notes as FaultNotes;
use load_events::LoadFault;
use slot_chains::Notes as SlotNotes;
use std::alloc::Global;
use std::collections::HashMap;
use type_subs::ConstraintNotes;

/// Notes on the definitions of one world and the trees of one pool.
#[derive(Drop)]
pub struct Notes {
    pub(crate) faults: FaultNotes,
    pub(crate) slots: SlotNotes,
    pub(crate) maps: MapNotes,
    pub(crate) constraints: ConstraintNotes,
    /// The fault that the slots and interfaces of a definition have.
    pub(crate) slot_faults: HashMap<u32, Option<LoadFault>>,
}

impl Notes {
    /// No notes.
    pub fn new(alloc: Global) -> Notes
        ensures { (w : Facts) (ts : List Tree) → AreNotes w ts result }
    {
        Notes {
            faults: FaultNotes::new(alloc),
            slots: SlotNotes::new(alloc),
            maps: MapNotes::new(alloc),
            constraints: ConstraintNotes::new(alloc),
            slot_faults: HashMap::new(alloc),
        }
    }
}
