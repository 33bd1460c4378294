//! Why a file isn't taken.
ghost use Rattle.std.specs.Prelude.{◌≡◌};

use clr_base::{ImageFault, Memory};
use std::alloc::AllocError;

/// The first fault of a file, or want of memory.
#[derive(Clone, Copy, Debug, PartialEq, Eq)]
pub enum Refusal {
    Fault(ImageFault),
    Memory,
}

impl From<ImageFault> for Refusal {
    ghost use Rattle.image_rows.specs.declared.refusal.Refusal.TheVariants as refusal;

    ghost from_gives = { λ fault e. e ≡ refusal.Fault fault };

    fn from(fault: ImageFault) -> Refusal {
        Refusal::Fault(fault)
    }
}

impl From<AllocError> for Refusal {
    ghost use Rattle.image_rows.specs.declared.refusal.Refusal.TheVariants as refusal;

    ghost from_gives = { λ _ e. e ≡ refusal.Memory };

    fn from(_error: AllocError) -> Refusal {
        Refusal::Memory
    }
}

impl From<Memory> for Refusal {
    ghost use Rattle.image_rows.specs.declared.refusal.Refusal.TheVariants as refusal;

    ghost from_gives = { λ _ e. e ≡ refusal.Memory };

    fn from(_error: Memory) -> Refusal {
        Refusal::Memory
    }
}
