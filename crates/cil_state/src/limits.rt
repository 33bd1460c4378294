//! How much a job may have.

ghost use Rattle.std.specs.Prelude.{◌≡◌, MatchBool};
ghost use Rattle.cil_state.specs.Meets.{Meets};
ghost use Rattle.cil_state.specs.Limits as spec;

use crate::trap::{Stop, Trap};
use sqlite_items::Items;
use std::alloc::Global;

/// How many frames a job may have at once.
pub const FRAME_LIMIT: usize = 1_024;

/// How many bytes a job may write.
pub const OUTPUT_LIMIT: usize = 1_048_576;

/// Appends a text to the output. OutputFull where it would be too long, and then nothing is written.
pub fn write_text(alloc: Global, output: &mut Items<u8>, text: &[u8]) -> Result<(), Stop>
    ensures { Meets result (λ _. output.new) (spec.written text.now output.old) }
{
    let written = output.len();
    if written > OUTPUT_LIMIT || text.len() > OUTPUT_LIMIT - written {
        return Err(Stop::Trap(Trap::OutputFull));
    }
    let text = Items::from_slice(alloc, text)?;
    Ok(output.append(text)?)
}

/// Takes the fuel of one instruction, if there is any left.
pub fn spend(fuel: &mut u64) -> bool
    ensures { (result, fuel.new) ≡ spec.spent fuel.old }
{
    if *fuel == 0 {
        return false;
    }
    *fuel -= 1;
    true
}
