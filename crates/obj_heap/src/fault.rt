//! Why an object isn't made.

ghost use Rattle.std.specs.Prelude.{◌≡◌};

use std::alloc::{AllocError, AllocFailed};
use thiserror::Error;

/// Why an object isn't made.
///
/// `HeapFull`: the sizes of all objects would pass 16,777,216 bytes. `Memory`: want of memory.
#[derive(Clone, Copy, Debug, PartialEq, Eq, Error)]
pub enum HeapFault {
    #[error("heap full")]
    HeapFull,
    #[error("want of memory")]
    Memory,
}

impl From<AllocError> for HeapFault {
    ghost use Rattle.obj_heap.specs.declared.fault.HeapFault.TheVariants as fault;

    ghost from_gives = { λ _ e. e ≡ fault.Memory };

    fn from(_error: AllocError) -> HeapFault {
        HeapFault::Memory
    }
}

impl<T: Drop> From<AllocFailed<T>> for HeapFault {
    ghost use Rattle.obj_heap.specs.declared.fault.HeapFault.TheVariants as fault;

    ghost from_gives = { λ _ e. e ≡ fault.Memory };

    fn from(_error: AllocFailed<T>) -> HeapFault {
        HeapFault::Memory
    }
}
