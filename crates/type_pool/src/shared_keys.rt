//! A list of keys that share their parts.

ghost use Rattle.std.specs.Prelude.{◌≡◌, ◌<◌, true, length, map, Some, slice_get, slice_index_or, IfOk, IfSome};
ghost use Rattle.type_pool.specs.Keys.{key_at, keys_below, mark_of_key as key_mark};

use crate::arena::Pool;
use crate::key_nodes::KeyNode;
use crate::keys::{mark_of_key, to_key};
use crate::nodes::Mark;
use clr_base::Memory;
use sqlite_items::Items;
use std::alloc::Global;
use std::marker::Model;
use type_tree::Key;

/// A list of keys over a pool of its own, which contracts see as the list of the keys. Equal parts
/// stand once, so it takes memory for the trees that differ, and not for the weights of its keys.
#[derive(Drop)]
pub struct SharedKeys {
    pool: Pool,
    keys: Items<KeyNode>,
}

impl Model for SharedKeys {
    ghost use Rattle.std.specs.Prelude.{◌≡◌, List, map, length, true};
    ghost use Rattle.std.specs.Coded.{coded_list};
    ghost use Rattle.type_tree.specs.declared.tree.Key.{Key};
    ghost use Rattle.type_tree.specs.contracts.tree.Key as key;
    ghost use Rattle.type_pool.specs.Keys.{key_at, keys_below};

    ghost Value = { List Key };

    ghost coded = { coded_list key.the_row.coded };

    ghost view = { λ s. map (key_at s.pool) s.keys };

    ghost invariant = { λ s. keys_below (length s.pool) s.keys ≡ true };
}

impl SharedKeys {
    /// These keys over their pool.
    pub fn new(pool: Pool, keys: Items<KeyNode>) -> SharedKeys
        requires { keys_below (length pool) keys ≡ true }
        ensures { result ≡ map (key_at pool) keys }
    {
        SharedKeys { pool, keys }
    }

    /// How many keys there are.
    pub fn len(&self) -> usize
        ensures { result ≡ length self.now }
    {
        self.keys.len()
    }

    /// One of the keys, with trees of its own. It has as many nodes as its weight says: test that
    /// first.
    pub fn get(&self, alloc: Global, at: usize) -> Result<Key, Memory>
        requires { at < length self.now }
        ensures { IfOk result (λ k. slice_get self.now at ≡ Some k) }
    {
        to_key(&self.pool, alloc, &self.keys.as_slice()[at])
    }

    /// How deep and how heavy one of the keys is.
    pub fn mark(&self, at: usize) -> Mark
        requires { at < length self.now }
        ensures { IfSome (slice_get self.now at) (λ k. result ≡ key_mark k) }
    {
        mark_of_key(&self.pool, &self.keys.as_slice()[at])
    }
}
