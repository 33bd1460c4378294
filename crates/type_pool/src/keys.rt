//! Keys over a pool: read, put in, measured, compared.

ghost use Rattle.std.specs.Prelude.{◌≡◌, ◌↔◌, true, length, IsTrue, IfOk};
ghost use Rattle.type_pool.specs.Trees.{Grows};
ghost use Rattle.type_pool.specs.Keys.{key_at, key_below, mark_of_key as key_mark, SpellsKey};

use crate::arena::{Pool, one_more};
use crate::key_nodes::{KeyNode, same_key_node};
use crate::nodes::Mark;
use crate::trees::{from_tree, from_trees, to_tree, to_trees};
use clr_base::Memory;
use sqlite_items::Items;
use std::alloc::Global;
use type_tree::{Key, MethKey};

/// The key over a pool, into which its trees are put where they lack.
pub fn from_key(key: &Key, pool: &mut Pool, alloc: Global) -> Result<KeyNode, Memory>
    ensures grows { Grows pool.old pool.new }
    ensures spells { IfOk result (λ k. SpellsKey pool.new k key.now) }
{
    match key {
        Key::Tree(t) => {
            let id = from_tree(t, pool, alloc)?;
            Ok(KeyNode::Tree(id))
        }
        Key::Meth(m) => {
            let owner = from_tree(&m.owner, pool, alloc)?;
            let args = from_trees(m.args.as_slice(), pool, alloc)?;
            Ok(KeyNode::Meth(owner, m.method, args))
        }
    }
}

/// The key with trees of its own. It has as many nodes as its weight says: test that first.
pub fn to_key(pool: &Pool, alloc: Global, key: &KeyNode) -> Result<Key, Memory>
    requires { key_below (length pool.now) key.now ≡ true }
    ensures { IfOk result (λ k. k ≡ key_at pool.now key.now) }
{
    match key {
        KeyNode::Tree(id) => Ok(Key::Tree(to_tree(pool, alloc, *id)?)),
        KeyNode::Meth(owner, method, args) => {
            let owner = to_tree(pool, alloc, *owner)?;
            let args = to_trees(pool, alloc, pool.len(), args.as_slice())?;
            Ok(Key::Meth(MethKey {
                owner,
                method: *method,
                args,
            }))
        }
    }
}

/// An equal one.
pub fn copy_key_node(alloc: Global, key: &KeyNode) -> Result<KeyNode, Memory>
    ensures { IfOk result (λ k. k ≡ key.now) }
{
    match key {
        KeyNode::Tree(id) => Ok(KeyNode::Tree(*id)),
        KeyNode::Meth(owner, method, args) => {
            let args = Items::from_slice(alloc, args.as_slice())?;
            Ok(KeyNode::Meth(*owner, *method, args))
        }
    }
}

/// Whether two keys are equal.
pub fn same_keys(pool: &Pool, a: &KeyNode, b: &KeyNode) -> bool
    requires left { key_below (length pool.now) a.now ≡ true }
    requires right { key_below (length pool.now) b.now ≡ true }
    ensures { IsTrue result ↔ (key_at pool.now a.now ≡ key_at pool.now b.now) }
{
    pool.each_once();
    same_key_node(a, b)
}

/// How deep and how heavy a key is.
pub fn mark_of_key(pool: &Pool, key: &KeyNode) -> Mark
    requires { key_below (length pool.now) key.now ≡ true }
    ensures { result ≡ key_mark (key_at pool.now key.now) }
{
    match key {
        KeyNode::Tree(id) => pool.mark(*id),
        KeyNode::Meth(owner, _, args) => {
            let owner = pool.mark(*owner);
            let args = pool.mark_of_all(args.as_slice());
            one_more(Mark {
                depth: owner.depth.max(args.depth),
                weight: owner.weight.saturating_add(args.weight),
            })
        }
    }
}
