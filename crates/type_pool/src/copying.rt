//! Copies of levels, and notes of what a walk has done.

ghost use Rattle.std.specs.Prelude.{◌≡◌, nat_eq, Some, IfOk, OnOk};
ghost use Rattle.std.specs.HashMap.{get, Updates};
ghost use Rattle.std.specs.Option.{option_map};

use crate::nodes::{Id, Node};
use clr_base::Memory;
use sqlite_items::Items;
use std::alloc::Global;
use std::collections::HashMap;

/// A level equal to another.
pub fn copy_node(alloc: Global, node: &Node) -> Result<Node, Memory>
    ensures { IfOk result (λ n. n ≡ node.now) }
{
    match node {
        Node::Inst(def, args) => Ok(Node::Inst(*def, Items::from_slice(alloc, args.as_slice())?)),
        Node::Array(e) => Ok(Node::Array(*e)),
        Node::ByRef(e) => Ok(Node::ByRef(*e)),
        Node::Ptr(e) => Ok(Node::Ptr(*e)),
        Node::Var(n) => Ok(Node::Var(*n)),
        Node::MVar(n) => Ok(Node::MVar(*n)),
        Node::Missing(name, value) => Ok(Node::Missing(*name, *value)),
        Node::Odd(code) => Ok(Node::Odd(*code)),
    }
}

/// What a walk has done: for each tree, the tree that it became.
pub type Memo = HashMap<u32, u32>;

/// What a tree became.
pub fn noted(memo: &Memo, id: Id) -> Option<Id>
    ensures { option_map (λ v. v.0) result ≡ get nat_eq memo.now id.0 }
{
    match memo.get(&id.0) {
        Some(v) => Some(Id(*v)),
        None => None,
    }
}

/// Notes what a tree became.
pub fn note(memo: &mut Memo, id: Id, became: Id) -> Result<(), Memory>
    ensures { OnOk result (Updates nat_eq memo.old memo.new id.0 (Some became.0)) }
{
    match memo.insert(id.0, became.0) {
        Ok(_) => Ok(()),
        Err(_) => Err(Memory),
    }
}
