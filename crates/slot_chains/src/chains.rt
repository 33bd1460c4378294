//! Chains of parents.

ghost use Rattle.std.specs.Prelude.{◌≡◌};
ghost use Rattle.method_slots.specs.Chains as spec;

use clr_base::DefId;
use method_slots::parent_def;
use type_tree::World;

/// How many members a chain has at most (the definition counted).
const LONGEST: u32 = 64;

/// Whether a definition's chain of parents has at most 64 members, itself counted: else it has the fault
/// BaseCycle.
pub fn chain_within(world: &World, def: DefId) -> bool
    ensures { result ≡ spec.chain_within spec.longest_chain world.now def.0 }
{
    let mut at = def;
    for i in 0..LONGEST {
        if at.0 >= world.def_count() {
            return true;
        }
        match parent_def(world.def(at)) {
            Some(parent) => at = parent,
            None => return true,
        }
    }
    false
}
