//! A loader that threads share.

ghost use Rattle.std.specs.Prelude.{◌≡◌, IfOk, IfErr};
ghost use Rattle.loader_api.specs.Sharing as spec;

use crate::types::Types;
use std::alloc::Global;

/// Why a pass was not made.
#[derive(Clone, Copy, PartialEq, Eq)]
pub enum ForkFault {
    /// The numbers 1 to 4,095 were drawn.
    PassesFull,
    /// Want of memory.
    Memory,
}

/// A loader that has a pass for each thread.
pub trait Shared: Types {
    // The numbers 1 to 4,095 were drawn.
    ghost all_drawn: { Self → Self.Pass → Type 0 };

    /// A pass with a number that none had, which has seen what this one has. PassesFull comes where the numbers 1 to
    /// 4,095 were drawn; for want of memory a number may be lost.
    fn fork(&self, alloc: Global, pass: &mut Self::Pass) -> Result<Self::Pass, ForkFault>
        requires of { Self.is_of self.now pass.old }
        ensures of { Self.is_of self.now pass.new }
        ensures on { Self.grows self.now pass.old pass.new }
        ensures stays { spec.Stays (Self.view self.now pass.old) (Self.view self.now pass.new) }
        ensures forks { IfOk result (λ f. spec.Forks (Self.is_of self.now) (Self.grows self.now) (Self.view self.now) pass.old pass.new f) }
        ensures refused { IfErr result (λ fault. spec.NotForked (Self.view self.now pass.old) (Self.view self.now pass.new) fault) }
        ensures full { IfErr result (λ fault. spec.IsFull (all_drawn self.now pass.new) fault) };

    /// Takes a pass in, with all that it has seen and keeps. Its calls stay in the history.
    fn take_in(&self, into: &mut Self::Pass, gone: Self::Pass)
        requires of { Self.is_of self.now into.old }
        requires gone { Self.is_of self.now gone }
        ensures takes { spec.TakesIn (Self.is_of self.now) (Self.grows self.now) (Self.view self.now) into.old gone into.new }
        ensures numbers { spec.HasAll (Self.view self.now into.new) → spec.AreFirst (Self.view self.now into.new).drawn };
}
