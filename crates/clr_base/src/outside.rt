//! The traits of what is outside. What an object holds is told by the ones in memory alone.
//! The count of faults rises by one where a call answers `Failed`, and at no other call.
ghost use Rattle.std.specs.Prelude.{◌≡◌, ℕ, List, IfOk};
ghost use Rattle.std.specs.declared.option.Option.{Option};
ghost use Rattle.clr_base.specs.Causes.{Counts, FetchCounts, GivenCounts, counted};
ghost use Rattle.clr_base.specs.Content.{Takes};
ghost use Rattle.clr_base.specs.Files.{IsFile};

use std::alloc::Global;
use thiserror::Error;

/// What is outside failed.
#[derive(Clone, Copy, Debug, PartialEq, Eq, Error)]
#[error("the outside failed")]
pub struct Failed;

/// Why a file wasn't fetched.
#[derive(Clone, Copy, Debug, PartialEq, Eq, Error)]
pub enum FetchFault {
    /// The shelf failed, and counted it.
    #[error("the file can't be read")]
    Failed,
    /// Want of memory.
    #[error("want of memory")]
    Memory,
}

/// Files by name.
pub trait Shelf {
    /// What its files hold, where it tells it.
    ghost files: { Self → Option (List ℕ → Option (List ℕ)) };

    /// How often a file was asked for. The count stays at the greatest `u64` once it is there.
    ghost calls: { Self → ℕ };

    /// How many files it has given. The count stays at the greatest `u64` once it is there.
    ghost given: { Self → ℕ };

    /// How often it has failed. The count stays at the greatest `u64` once it is there.
    ghost faults: { Self → ℕ };

    /// The bytes of a file.
    fn fetch(&mut self, alloc: Global, name: &str) -> Result<Vec<u8>, FetchFault>
        ensures bytes { IfOk result (λ bytes. IsFile (files self.old) name.now bytes.items) }
        ensures kept { files self.new ≡ files self.old }
        ensures asked { calls self.new ≡ counted (calls self.old) }
        ensures gave { GivenCounts (given self.old) (given self.new) result }
        ensures cause { FetchCounts (faults self.old) (faults self.new) result };
}

/// Where bytes are written.
pub trait Sink {
    /// What it holds, where it tells it.
    ghost content: { Self → Option (List ℕ) };

    /// How often it has failed.
    ghost faults: { Self → ℕ };

    /// Takes some first bytes of a piece, and at least one of a piece that isn't empty.
    fn put(&mut self, piece: &[u8]) -> Result<usize, Failed>
        ensures taken { Takes (content self.old) (content self.new) result piece.now }
        ensures cause { Counts (faults self.old) (faults self.new) result };
}
