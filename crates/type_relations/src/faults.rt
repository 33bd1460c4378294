//! Faults that keys have by themselves.
ghost use Rattle.std.specs.Prelude.{◌≡◌, Bool, true, length, List, IfOk, OnOk};
ghost use Rattle.type_tree.specs.declared.tree.Ty.{Ty};
ghost use Rattle.type_tree.specs.declared.tree.Key.{Key};
ghost use Rattle.type_tree.specs.World.{Facts};
ghost use Rattle.type_pool.specs.Trees.{Grows};
ghost use Rattle.type_pool.specs.Keys.{key_at, key_below};

use clr_base::Memory;
use std::alloc::Global;
use type_pool::{KeyNode, Pool};
use type_tree::World;

/// Which keys have a fault of their own: nothing is loaded for these.
pub trait Faults {
    /// What was found before, and serves again.
    type Notes;

    // The keys of a world that have a fault.
    ghost faulty: { Self → Facts → Key → Bool };

    // The notes are right over the trees of a pool.
    ghost right: { Self → Facts → List Ty → Self.Notes → Type 0 };

    /// Whether the key has a fault of its own.
    fn has_fault(
        &self,
        alloc: Global,
        world: &World,
        pool: &mut Pool,
        notes: &mut Self::Notes,
        key: &KeyNode,
    ) -> Result<bool, Memory>
        requires within { key_below (length pool.old) key.now ≡ true }
        requires right { right self.now world.now pool.old notes.old }
        ensures grows { Grows pool.old pool.new }
        ensures right { OnOk result (right self.now world.now pool.new notes.new) }
        ensures is { IfOk result (λ found. found ≡ faulty self.now world.now (key_at pool.old key.now)) };

    // Notes that are right stay so where a pool grows.
    ghost right_on: { (s : Self) (w : Facts) (ts us : List Ty) (notes : Self.Notes) → Grows ts us → right s w ts notes → right s w us notes };
}
