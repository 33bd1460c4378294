//! What keys need directly.
ghost use Rattle.std.specs.Prelude.{◌≡◌, true, length, List, IfOk, OnOk};
ghost use Rattle.type_tree.specs.declared.tree.Ty.{Ty};
ghost use Rattle.type_tree.specs.declared.tree.Key.{Key};
ghost use Rattle.type_tree.specs.World.{Facts};
ghost use Rattle.type_pool.specs.Trees.{Grows};
ghost use Rattle.type_pool.specs.Keys.{key_at, key_below, keys_below};
ghost use Rattle.key_closure.specs.Bounds.{keys_at};

use clr_base::Memory;
use sqlite_items::Items;
use std::alloc::Global;
use type_pool::{KeyNode, Pool};
use type_tree::World;

/// A relation between keys whose closure is asked for: the direct members of a key, its parents and interfaces ..
pub trait Needs {
    /// What was found before, and serves again.
    type Notes;

    // What a key of a world needs directly, in order.
    ghost needs: { Self → Facts → Key → List Key };

    // The notes are right over the trees of a pool.
    ghost noted: { Self → Facts → List Ty → Self.Notes → Type 0 };

    /// What the key needs directly, in order.
    fn direct(
        &self,
        alloc: Global,
        world: &World,
        pool: &mut Pool,
        notes: &mut Self::Notes,
        key: &KeyNode,
    ) -> Result<Items<KeyNode>, Memory>
        requires within { key_below (length pool.old) key.now ≡ true }
        requires noted { noted self.now world.now pool.old notes.old }
        ensures grows { Grows pool.old pool.new }
        ensures noted { OnOk result (noted self.now world.now pool.new notes.new) }
        ensures within { IfOk result (λ keys. keys_below (length pool.new) keys ≡ true) }
        ensures spells { IfOk result (λ keys. keys_at pool.new keys ≡ needs self.now world.now (key_at pool.old key.now)) };
}
