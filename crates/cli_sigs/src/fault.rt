//! Why a signature isn't read.
ghost use Rattle.std.specs.Prelude.{◌≡◌, ◌<◌, ◌^◌, length};
ghost use Rattle.cli_sigs.specs.Fault.{fault_in};
ghost use Rattle.cli_sigs.specs.declared.fault.Stop.TheVariants as stop;

use std::alloc::{AllocError, AllocFailed};
use thiserror::Error;

/// Why a signature isn't read.
#[derive(Clone, Copy, Debug, PartialEq, Eq, Error)]
pub enum SigFault {
    /// The place in the blob of the first byte that can't be read: an offset in bytes, the blob's length where the
    /// blob ends too early. A compressed number that is cut or not allowed is refused at its own first byte.
    #[error("bad signature at byte {0}")]
    Bad(u32),
    /// Want of memory: an allocation failed.
    #[error("want of memory")]
    Memory,
}

/// Why reading stopped.
#[derive(Clone, Copy)]
pub(crate) enum Stop {
    /// Want of memory.
    Memory,
    /// So many bytes are left from the first that can't be read.
    Left(usize),
}

impl Stop {
    /// The fault of the whole blob, whose reading stopped so.
    pub(crate) fn in_blob(self, blob: &[u8]) -> SigFault
        requires { length blob.now < 2 ^ 32 }
        ensures { result ≡ fault_in blob.now self }
    {
        match self {
            Stop::Memory => SigFault::Memory,
            Stop::Left(left) => SigFault::Bad(blob.len().saturating_sub(left) as u32),
        }
    }
}

impl From<AllocError> for Stop {
    ghost from_gives = { λ _ e. e ≡ stop.Memory };

    fn from(_error: AllocError) -> Stop {
        Stop::Memory
    }
}

impl<T: Drop> From<AllocFailed<T>> for Stop {
    ghost from_gives = { λ _ e. e ≡ stop.Memory };

    fn from(_error: AllocFailed<T>) -> Stop {
        Stop::Memory
    }
}
