//! One check of an ordered list.
ghost use Rattle.std.specs.Prelude.{◌≡◌, [], ◌∷◌};
ghost use Rattle.clr_base.specs.Checks as checks;

use crate::image_fault::{FaultKind, ImageFault};

/// A check that doesn't pass is its fault: the kind, at the place.
pub fn check(passes: bool, kind: FaultKind, place: u64) -> Result<(), ImageFault>
    ensures { result ≡ checks.first_fault (checks.check passes kind place ∷ []) }
{
    if passes {
        Ok(())
    } else {
        Err(ImageFault { kind, place })
    }
}
