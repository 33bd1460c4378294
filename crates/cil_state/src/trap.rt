//! What ends a run before its end.

ghost use Rattle.std.specs.Prelude.{◌≡◌};
ghost use Rattle.cil_state.specs.Operands.{is_profile};

use load_events::LoadFault;
use obj_heap::{HeapFault, ObjRef};
use std::alloc::{AllocError, AllocFailed};

/// Why an instruction is not executed. Where several hold at one point of an instruction, the one that stands first
/// here comes.
#[derive(Clone, Copy)]
pub enum Trap {
    /// The profile doesn't have what is executed.
    NotInProfile,
    /// The code is not correct (ECMA-335 III.1.1, "correct CIL").
    InvalidProgram,
    /// An object or an address is null that must not be.
    NullReference,
    /// An index is outside of the array or text.
    IndexRange,
    DivideByZero,
    /// An exact result doesn't fit.
    Overflow,
    InvalidCast,
    /// A stored object isn't of the array's element type.
    ArrayMismatch,
    /// A type or a method is refused.
    TypeLoad(LoadFault),
    MissingMember,
    /// The object was thrown.
    Thrown(ObjRef),
    /// There are as many frames as may be.
    StackOverflow,
    /// The objects take as many bytes as they may.
    HeapFull,
    /// The output has as many bytes as it may.
    OutputFull,
}

impl Trap {
    /// Whether the profile doesn't have what is executed.
    pub fn is_profile(self) -> bool
        ensures { result ≡ is_profile self }
    {
        matches!(self, Trap::NotInProfile)
    }
}

/// Why an instruction does not go on: a trap, or want of memory.
#[derive(Clone, Copy)]
pub enum Stop {
    Trap(Trap),
    Memory,
}

impl From<Trap> for Stop {
    ghost use Rattle.cil_state.specs.declared.trap.Stop.TheVariants as stop;

    ghost from_gives = { λ t r. r ≡ stop.Trap t };

    fn from(trap: Trap) -> Stop {
        Stop::Trap(trap)
    }
}

impl From<AllocError> for Stop {
    ghost use Rattle.cil_state.specs.declared.trap.Stop.TheVariants as stop;

    ghost from_gives = { λ _ r. r ≡ stop.Memory };

    fn from(_error: AllocError) -> Stop {
        Stop::Memory
    }
}

impl<T: Drop> From<AllocFailed<T>> for Stop {
    ghost use Rattle.cil_state.specs.declared.trap.Stop.TheVariants as stop;

    ghost from_gives = { λ _ r. r ≡ stop.Memory };

    fn from(_error: AllocFailed<T>) -> Stop {
        Stop::Memory
    }
}

impl From<HeapFault> for Stop {
    ghost use Rattle.cil_state.specs.Meets.{stop_of};

    ghost from_gives = { λ e r. r ≡ stop_of e };

    fn from(fault: HeapFault) -> Stop {
        match fault {
            HeapFault::HeapFull => Stop::Trap(Trap::HeapFull),
            HeapFault::Memory => Stop::Memory,
        }
    }
}
