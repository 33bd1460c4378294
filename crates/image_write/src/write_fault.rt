//! Why a draft isn't written.

ghost use Rattle.std.specs.Prelude.{◌≡◌};

use std::alloc::AllocError;
use thiserror::Error;

/// What kept a draft from being written.
#[derive(Clone, Copy, Debug, PartialEq, Eq, Error)]
pub enum WriteFault {
    /// A table, by its number, has more than 16,777,215 rows: a token (ECMA-335 III.1.9) can't name them all.
    #[error("too many rows in table {0}")]
    TooManyRows(u8),
    /// Want of memory.
    #[error("want of memory")]
    Memory,
}

impl From<AllocError> for WriteFault {
    ghost use Rattle.image_write.specs.declared.write_fault.WriteFault.TheVariants as fault;

    ghost from_gives = { λ _ e. e ≡ fault.Memory };

    fn from(_error: AllocError) -> WriteFault {
        WriteFault::Memory
    }
}
