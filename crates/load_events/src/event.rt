//! Events: what a loader's history is made of.

use crate::load_fault::LoadFault;
use clr_base::{Handle, SigId};

/// What a load was answered.
#[derive(Clone, Copy, PartialEq, Eq)]
pub enum Answer {
    /// The key is loaded under this handle; `first` where no load before answered it.
    Loaded { handle: Handle, first: bool },
    /// The key has a fault.
    Refused(LoadFault),
}

/// One call of a caller, or its end.
#[derive(Clone, Copy, PartialEq, Eq)]
pub enum Event {
    /// A load of a signature begins, with the arguments of a context.
    Ask {
        caller: u32,
        context: Option<Handle>,
        sig: SigId,
    },
    /// The caller's latest load ends.
    Done {
        caller: u32,
        outcome: Answer,
    },
    /// A signature was looked for among what is loaded.
    Find {
        caller: u32,
        context: Option<Handle>,
        sig: SigId,
        found: bool,
    },
}
