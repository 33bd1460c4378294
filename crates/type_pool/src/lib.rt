//! A pool in which each type tree stands once, named by its index.
#![tactic(auto)]

mod arena;
mod canonical;
mod copying;
mod key_nodes;
mod key_walks;
mod keys;
mod nodes;
mod putting;
mod shared_keys;
mod trees;

pub use arena::Pool;
pub use canonical::{canon, canon_noted};
pub use copying::{Memo, copy_node};
pub use key_nodes::{KeyId, KeyNode, Keys, same_key_node};
pub use key_walks::{canon_key, key_of, subst_key};
pub use keys::{copy_key_node, from_key, mark_of_key, same_keys, to_key};
pub use nodes::{Id, Mark, Node, same_node};
pub use putting::subst;
pub use shared_keys::SharedKeys;
pub use trees::{from_tree, from_trees, to_tree};
