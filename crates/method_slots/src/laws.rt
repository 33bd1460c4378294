//! Laws of slots.

ghost use Rattle.std.specs.Prelude.{length, ◌<◌};
ghost use Rattle.method_slots.specs.SlotLaws.{KeepsSlots};

use clr_base::DefId;
use type_tree::World;

/// A law: a definition keeps the slots of its parent, with their numbers and with the names and
/// signatures of the methods that opened them, and never has fewer. `parents` is a bound on the
/// parents of the parent that are looked at.
pub fn slots_of_the_parent_stay(world: &World, def: DefId, parents: u32)
    requires { def.0 < length world.now.defs }
    ensures { KeepsSlots world.now parents def.0 }
{
    let _ = world;
    let _ = def;
    let _ = parents;
}
