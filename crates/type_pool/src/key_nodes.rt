//! Keys whose trees are named by their numbers in a pool, and sets of them.

ghost use Rattle.std.specs.Prelude.{◌≡◌, ◌<◌, ◌↔◌, [], Some, slice_get, length, fold, IsTrue, IfOk, OnErr};
ghost use Rattle.type_pool.specs.KeyFed.{key_input};
ghost use Rattle.type_pool.specs.Keys.{NodesOnce, NodesGrow, KeyPut};
ghost use Rattle.type_pool.specs.Trees.{AddsAtMost};

use crate::nodes::{Id, feed_ids, same_ids};
use clr_base::{Memory, MethId};
use indexmap::IndexSet;
use sqlite_items::Items;
use std::alloc::Global;
use std::hash::{Hash, Hasher};
use std::marker::Model;

/// What is loaded, with the trees named by their numbers in a pool.
#[derive(Drop)]
pub enum KeyNode {
    /// A type.
    Tree(Id),
    /// A method with the type that owns it and with the method's own arguments.
    Meth(Id, MethId, Items<Id>),
}

/// Whether two are equal. Over one pool they are where the keys are (`same_keys`).
pub fn same_key_node(a: &KeyNode, b: &KeyNode) -> bool
    ensures { IsTrue result ↔ (a.now ≡ b.now) }
{
    match (a, b) {
        (KeyNode::Tree(x), KeyNode::Tree(y)) => x.0 == y.0,
        (KeyNode::Meth(x, m, xs), KeyNode::Meth(y, n, ys)) => {
            x.0 == y.0 && m.0 == n.0 && same_ids(xs.as_slice(), ys.as_slice())
        }
        _ => false,
    }
}

impl PartialEq for KeyNode {
    ghost use Rattle.type_pool.specs.KeySame.{same_key, same_key_laws};

    ghost eq = { same_key };

    ghost laws = { same_key_laws };

    fn eq(&self, other: &KeyNode) -> bool {
        same_key_node(self, other)
    }
}

impl Eq for KeyNode {
    ghost use Rattle.type_pool.specs.KeySame.{same_key_equiv};

    ghost laws = { same_key_equiv };
}

fn feed_key<H: Hasher>(key: &KeyNode, state: &mut H)
    ensures { state.new ≡ fold H.write state.old (key_input key.now) }
{
    match key {
        KeyNode::Tree(id) => {
            state.write_u8(0);
            state.write_u32(id.0);
        }
        KeyNode::Meth(owner, method, args) => {
            state.write_u32(owner.0);
            state.write_u32(method.0);
            feed_ids(args.as_slice(), state);
        }
    }
}

impl Hash for KeyNode {
    ghost use Rattle.type_pool.specs.KeyFed.{key_input};
    ghost use Rattle.type_pool.specs.KeySame.{key_respects};

    ghost hash_input = { key_input };

    ghost respects_eq = { key_respects };

    fn hash<H: Hasher>(&self, state: &mut H) {
        feed_key(self, state);
    }
}

/// A key of a set, by its place in the order in which they were put in.
#[derive(Clone, Copy, PartialEq, Eq)]
pub struct KeyId(pub u32);

/// Keys over one pool, each once. Contracts see the list of them, in the order in which they were
/// put in.
#[derive(Drop)]
pub struct Keys {
    nodes: IndexSet<KeyNode>,
}

impl Model for Keys {
    ghost use Rattle.std.specs.Prelude.{List};
    ghost use Rattle.std.specs.Coded.{coded_list};
    ghost use Rattle.type_pool.specs.declared.key_nodes.KeyNode.{KeyNode};
    ghost use Rattle.type_pool.specs.contracts.key_nodes.KeyNode as node;
    ghost use Rattle.type_pool.specs.Keys.{NodesOnce};

    ghost Value = { List KeyNode };

    ghost coded = { coded_list node.the_row.coded };

    ghost view = { λ k. k.nodes.keys };

    ghost invariant = { λ k. NodesOnce k.nodes.keys };
}

impl Keys {
    /// No keys.
    pub fn new(alloc: Global) -> Keys
        ensures { result ≡ [] }
    {
        Keys {
            nodes: IndexSet::new(alloc),
        }
    }

    /// How many keys there are.
    pub fn len(&self) -> usize
        ensures { result ≡ length self.now }
    {
        self.nodes.len()
    }

    /// The key with a number.
    pub fn get(&self, id: KeyId) -> &KeyNode
        requires { id.0 < length self.now }
        ensures { slice_get self.now id.0 ≡ Some result.now }
    {
        &self.nodes.as_slice()[id.0 as usize]
    }

    /// A law: each key has one number.
    pub fn each_once(&self)
        ensures { NodesOnce self.now }
    {
        let _ = &self.nodes;
    }

    /// The number of a key, which is put in where it is new. Memory also where there are 2^32 - 1.
    pub fn intern(&mut self, key: KeyNode) -> Result<KeyId, Memory>
        ensures grows { NodesGrow self.old self.new }
        ensures adds { IfOk result (λ _. AddsAtMost self.old self.new key) }
        ensures err { OnErr result (self.new ≡ self.old) }
        ensures named { IfOk result (λ id. slice_get self.new id.0 ≡ Some key) }
    {
        if self.nodes.len() >= u32::MAX as usize {
            return Err(Memory);
        }
        let index = put_key(&mut self.nodes, key)?;
        Ok(KeyId(index))
    }
}

/// The index of this key: the one that is there, or this one, put last.
fn put_key(nodes: &mut IndexSet<KeyNode>, key: KeyNode) -> Result<u32, Memory>
    requires once { NodesOnce nodes.old.keys }
    requires room { length nodes.old.keys < 4294967295 }
    ensures ok { IfOk result (λ i. KeyPut nodes.old.keys nodes.new.keys i key) }
    ensures err { OnErr result (nodes.new.keys ≡ nodes.old.keys) }
{
    match nodes.insert_full(key) {
        Ok((index, _)) => Ok(index as u32),
        Err(_) => Err(Memory),
    }
}
