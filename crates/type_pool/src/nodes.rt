//! One level of a tree, whose parts are named by their numbers in a pool.

ghost use Rattle.std.specs.Prelude.{◌≡◌, ◌↔◌, IsTrue, fold};
ghost use Rattle.type_pool.specs.Fed.{ids_input, node_input};

use clr_base::{DefId, NameId};
use sqlite_items::Items;
use std::hash::{Hash, Hasher};

/// The number of a tree of a pool, from 0.
#[derive(Clone, Copy, PartialEq, Eq)]
pub struct Id(pub u32);

/// One level of a tree (`type_tree::Ty`), with numbers of trees in place of its parts.
#[derive(Drop)]
pub enum Node {
    /// A definition with its arguments.
    Inst(DefId, Items<Id>),
    /// An array of this element.
    Array(Id),
    /// A managed pointer to this type.
    ByRef(Id),
    /// An unmanaged pointer to this type.
    Ptr(Id),
    /// The generic parameter of a type with this number, from 0.
    Var(u32),
    /// The generic parameter of a method with this number, from 0.
    MVar(u32),
    /// A name that no definition has; true for a value type.
    Missing(NameId, bool),
    /// A form that is left out, with its code in the signature.
    Odd(u8),
}

/// How deep and how heavy a tree is, each up to the largest number.
#[derive(Clone, Copy, PartialEq, Eq)]
pub struct Mark {
    /// In levels: 1 for a tree without parts.
    pub depth: u32,
    /// In nodes, each counted as often as it stands in the tree.
    pub weight: u32,
}

impl Mark {
    /// The mark of a tree with no parts.
    pub const LEAF: Mark = Mark {
        depth: 1,
        weight: 1,
    };
}

/// A level with its mark, which a pool looks up by the level alone.
#[derive(Drop)]
pub struct Entry {
    pub node: Node,
    pub mark: Mark,
}

pub(crate) fn same_ids(xs: &[Id], ys: &[Id]) -> bool
    ensures { IsTrue result ↔ (xs.now ≡ ys.now) }
{
    if xs.len() != ys.len() {
        return false;
    }
    for (i, x) in xs.iter().enumerate() {
        if x.0 != ys[i].0 {
            return false;
        }
    }
    true
}

/// Whether two levels are equal.
pub fn same_node(a: &Node, b: &Node) -> bool
    ensures { IsTrue result ↔ (a.now ≡ b.now) }
{
    match (a, b) {
        (Node::Inst(d, xs), Node::Inst(e, ys)) => {
            d.0 == e.0 && same_ids(xs.as_slice(), ys.as_slice())
        }
        (Node::Array(x), Node::Array(y)) => x.0 == y.0,
        (Node::ByRef(x), Node::ByRef(y)) => x.0 == y.0,
        (Node::Ptr(x), Node::Ptr(y)) => x.0 == y.0,
        (Node::Var(m), Node::Var(n)) => m == n,
        (Node::MVar(m), Node::MVar(n)) => m == n,
        (Node::Missing(m, u), Node::Missing(n, v)) => m.0 == n.0 && u == v,
        (Node::Odd(m), Node::Odd(n)) => m == n,
        _ => false,
    }
}

impl PartialEq for Entry {
    ghost use Rattle.type_pool.specs.NodeSame.{same_entry, same_entry_laws};

    ghost eq = { same_entry };

    ghost laws = { same_entry_laws };

    fn eq(&self, other: &Entry) -> bool {
        same_node(&self.node, &other.node)
    }
}

impl Eq for Entry {
    ghost use Rattle.type_pool.specs.NodeSame.{same_entry_equiv};

    ghost laws = { same_entry_equiv };
}

pub(crate) fn feed_ids<H: Hasher>(ids: &[Id], state: &mut H)
    ensures { state.new ≡ fold H.write state.old (ids_input ids.now) }
{
    for id in ids {
        state.write_u32(id.0);
    }
}

fn feed_node<H: Hasher>(node: &Node, state: &mut H)
    ensures { state.new ≡ fold H.write state.old (node_input node.now) }
{
    match node {
        Node::Inst(def, args) => {
            state.write_u32(def.0);
            feed_ids(args.as_slice(), state);
        }
        Node::Array(e) => {
            state.write_u8(1);
            state.write_u32(e.0);
        }
        Node::ByRef(e) => {
            state.write_u8(2);
            state.write_u32(e.0);
        }
        Node::Ptr(e) => {
            state.write_u8(3);
            state.write_u32(e.0);
        }
        Node::Var(n) => {
            state.write_u8(4);
            state.write_u32(*n);
        }
        Node::MVar(n) => {
            state.write_u8(5);
            state.write_u32(*n);
        }
        Node::Missing(name, _) => {
            state.write_u8(6);
            state.write_u32(name.0);
        }
        Node::Odd(code) => {
            state.write_u8(7);
            state.write_u8(*code);
        }
    }
}

impl Hash for Entry {
    ghost use Rattle.type_pool.specs.NodeSame.{entry_input, entry_respects};

    ghost hash_input = { entry_input };

    ghost respects_eq = { entry_respects };

    fn hash<H: Hasher>(&self, state: &mut H) {
        feed_node(&self.node, state);
    }
}
