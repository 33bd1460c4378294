//! Trees read from a pool, and put into one.

ghost use Rattle.std.specs.Prelude.{◌≡◌, ◌<◌, ◌≤◌, true, length, IfOk};
ghost use Rattle.type_pool.specs.Trees.{at, at_all, ids_below, Grows, Spells};
ghost use Rattle.type_pool.specs.Jobs.{SpellAll};

use crate::arena::Pool;
use crate::nodes::{Id, Node};
use clr_base::Memory;
use sqlite_items::{Boxed, Items};
use std::alloc::Global;
use type_tree::Ty;

/// The tree that a number names. It has as many nodes as its weight says: test that first.
#[cycle(to_tree)]
pub fn to_tree(pool: &Pool, alloc: Global, id: Id) -> Result<Ty, Memory>
    requires { id.0 < length pool.now }
    ensures { IfOk result (λ t. t ≡ at pool.now id) }
{
    match pool.node(id) {
        Node::Inst(def, args) => {
            let parts = to_trees(pool, alloc, id.0 as usize, args.as_slice())?;
            Ok(Ty::Inst(*def, parts))
        }
        Node::Array(e) => {
            let part = to_tree(pool, alloc, *e)?;
            Ok(Ty::Array(Boxed::new(alloc, part)?))
        }
        Node::ByRef(e) => {
            let part = to_tree(pool, alloc, *e)?;
            Ok(Ty::ByRef(Boxed::new(alloc, part)?))
        }
        Node::Ptr(e) => {
            let part = to_tree(pool, alloc, *e)?;
            Ok(Ty::Ptr(Boxed::new(alloc, part)?))
        }
        Node::Var(n) => Ok(Ty::Var(*n)),
        Node::MVar(n) => Ok(Ty::MVar(*n)),
        Node::Missing(name, value) => Ok(Ty::Missing(*name, *value)),
        Node::Odd(code) => Ok(Ty::Odd(*code)),
    }
}

#[cycle(to_tree)]
pub(crate) fn to_trees(
    pool: &Pool,
    alloc: Global,
    above: usize,
    ids: &[Id],
) -> Result<Items<Ty>, Memory>
    requires within { above ≤ length pool.now }
    requires below { ids_below above ids.now ≡ true }
    ensures { IfOk result (λ ts. ts ≡ at_all pool.now ids.now) }
{
    let mut done = Items::new(alloc);
    for id in ids {
        done.push(to_tree(pool, alloc, *id)?)?;
    }
    Ok(done)
}

/// The number of a tree, which is put in with its parts where the pool lacks it.
#[cycle(from_tree)]
pub fn from_tree(t: &Ty, pool: &mut Pool, alloc: Global) -> Result<Id, Memory>
    ensures grows { Grows pool.old pool.new }
    ensures spells { IfOk result (λ r. Spells pool.new r t.now) }
{
    match t {
        Ty::Inst(def, args) => {
            let parts = from_trees(args.as_slice(), pool, alloc)?;
            pool.intern(Node::Inst(*def, parts))
        }
        Ty::Array(e) => {
            let part = from_tree(e.get(), pool, alloc)?;
            pool.intern(Node::Array(part))
        }
        Ty::ByRef(e) => {
            let part = from_tree(e.get(), pool, alloc)?;
            pool.intern(Node::ByRef(part))
        }
        Ty::Ptr(e) => {
            let part = from_tree(e.get(), pool, alloc)?;
            pool.intern(Node::Ptr(part))
        }
        Ty::Var(n) => pool.intern(Node::Var(*n)),
        Ty::MVar(n) => pool.intern(Node::MVar(*n)),
        Ty::Missing(name, value) => pool.intern(Node::Missing(*name, *value)),
        Ty::Odd(code) => pool.intern(Node::Odd(*code)),
    }
}

/// The numbers of trees.
#[cycle(from_tree)]
pub fn from_trees(all: &[Ty], pool: &mut Pool, alloc: Global) -> Result<Items<Id>, Memory>
    ensures grows { Grows pool.old pool.new }
    ensures spells { IfOk result (λ rs. SpellAll pool.new rs all.now) }
{
    let mut done = Items::new(alloc);
    for t in all {
        done.push(from_tree(t, pool, alloc)?)?;
    }
    Ok(done)
}
