//! Want of memory and of room: errors that say all by their name.
ghost use Rattle.std.specs.Prelude.{◌≡◌};

use std::alloc::{AllocError, AllocFailed};
use thiserror::Error;

/// Want of memory: an allocation failed.
#[derive(Clone, Copy, Debug, PartialEq, Eq, Error)]
#[error("want of memory")]
pub struct Memory;

impl From<AllocError> for Memory {
    fn from(_error: AllocError) -> Memory {
        Memory
    }
}

impl<T: Drop> From<AllocFailed<T>> for Memory {
    fn from(_error: AllocFailed<T>) -> Memory {
        Memory
    }
}

/// Every cell of the loader's table is taken.
#[derive(Clone, Copy, Debug, PartialEq, Eq, Error)]
#[error("table full")]
pub struct TableFull;

/// Every place of the loader's journal is taken.
#[derive(Clone, Copy, Debug, PartialEq, Eq, Error)]
#[error("history full")]
pub struct HistoryFull;
