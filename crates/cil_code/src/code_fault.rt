//! Why a method body isn't decoded.

ghost use Rattle.std.specs.Prelude.{◌≡◌};

use clr_base::Memory;
use std::alloc::{AllocError, AllocFailed};
use thiserror::Error;

/// The first fault of a method body. Places count in bytes from the body's first byte.
///
/// `NotInProfile`, at place 0: the body needs what isn't executed here, sections behind its code (II.25.4.5). `BadBody`: the
/// first byte that a body can't have there, or the body's length where it ends too soon. `Memory`: want of memory.
#[derive(Clone, Copy, Debug, PartialEq, Eq, Error)]
pub enum CodeFault {
    #[error("not in the profile at {0}")]
    NotInProfile(u32),
    #[error("bad body at {0}")]
    BadBody(u32),
    #[error("want of memory")]
    Memory,
}

impl From<Memory> for CodeFault {
    ghost use Rattle.cil_code.specs.declared.code_fault.CodeFault.TheVariants as fault;

    ghost from_gives = { λ _ e. e ≡ fault.Memory };

    fn from(_memory: Memory) -> CodeFault {
        CodeFault::Memory
    }
}

impl From<AllocError> for CodeFault {
    ghost use Rattle.cil_code.specs.declared.code_fault.CodeFault.TheVariants as fault;

    ghost from_gives = { λ _ e. e ≡ fault.Memory };

    fn from(_error: AllocError) -> CodeFault {
        CodeFault::Memory
    }
}

impl<T: Drop> From<AllocFailed<T>> for CodeFault {
    ghost use Rattle.cil_code.specs.declared.code_fault.CodeFault.TheVariants as fault;

    ghost from_gives = { λ _ e. e ≡ fault.Memory };

    fn from(_error: AllocFailed<T>) -> CodeFault {
        CodeFault::Memory
    }
}
