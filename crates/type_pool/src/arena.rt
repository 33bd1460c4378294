//! The pool.

ghost use Rattle.std.specs.Prelude.{◌≡◌, ◌<◌, ◌+◌, ◌↔◌, [], true, length, min, IsTrue, IfOk, OnErr};
ghost use Rattle.type_tree.specs.Measure.{depth, weight, depth_of_all, weight_of_all};
ghost use Rattle.type_pool.specs.Trees.{at, at_all, tree_of, mark_of, ids_below, parts_below, spelled, EachOnce, IsSound, Interned, AddsAtMost, Grows, Spells};

use crate::nodes::{Entry, Id, Mark, Node};
use clr_base::Memory;
use indexmap::IndexSet;
use std::alloc::Global;
use std::marker::Model;

/// A pool, which contracts see as the list of its trees. Each stands once.
#[derive(Drop)]
pub struct Pool {
    entries: IndexSet<Entry>,
}

impl Model for Pool {
    ghost use Rattle.std.specs.Prelude.{List};
    ghost use Rattle.std.specs.Coded.{coded_list};
    ghost use Rattle.type_tree.specs.declared.tree.Ty.{Ty};
    ghost use Rattle.type_tree.specs.contracts.tree.Ty as tree;
    ghost use Rattle.type_pool.specs.Trees.{spelled, IsSound};

    ghost Value = { List Ty };

    ghost coded = { coded_list tree.the_row.coded };

    ghost view = { λ p. spelled p.entries.keys };

    ghost invariant = { λ p. IsSound (spelled p.entries.keys) p.entries.keys };
}

impl Pool {
    /// A pool with no tree.
    pub fn new(alloc: Global) -> Pool
        ensures { result ≡ [] }
    {
        Pool {
            entries: IndexSet::new(alloc),
        }
    }

    /// How many trees the pool has.
    pub fn len(&self) -> usize
        ensures { result ≡ length self.now }
    {
        self.entries.len()
    }

    fn entry(&self, id: Id) -> &Entry
        requires { id.0 < length self.now }
        ensures level { tree_of self.now result.now.node ≡ at self.now id }
        ensures below { parts_below id.0 result.now.node ≡ true }
        ensures mark { result.now.mark ≡ mark_of (at self.now id) }
    {
        &self.entries.as_slice()[id.0 as usize]
    }

    /// The level of a tree, whose parts have lower numbers.
    pub fn node(&self, id: Id) -> &Node
        requires { id.0 < length self.now }
        ensures level { tree_of self.now result.now ≡ at self.now id }
        ensures below { parts_below id.0 result.now ≡ true }
    {
        &self.entry(id).node
    }

    /// How deep and how heavy a tree is.
    pub fn mark(&self, id: Id) -> Mark
        requires { id.0 < length self.now }
        ensures { result ≡ mark_of (at self.now id) }
    {
        self.entry(id).mark
    }

    /// Whether two trees are equal.
    pub fn same(&self, a: Id, b: Id) -> bool
        requires left { a.0 < length self.now }
        requires right { b.0 < length self.now }
        ensures { IsTrue result ↔ (at self.now a ≡ at self.now b) }
    {
        let _ = &self.entries;
        a.0 == b.0
    }

    /// A law: each tree has one number.
    pub fn each_once(&self)
        ensures { EachOnce self.now }
    {
        let _ = &self.entries;
    }

    pub(crate) fn mark_of_all(&self, ids: &[Id]) -> Mark
        requires { ids_below (length self.now) ids.now ≡ true }
        ensures deep { result.depth ≡ min (depth_of_all (at_all self.now ids.now)) 4294967295 }
        ensures heavy { result.weight ≡ min (weight_of_all (at_all self.now ids.now)) 4294967295 }
    {
        let mut depth: u32 = 0;
        let mut weight: u32 = 0;
        for id in ids {
            let mark = self.mark(*id);
            depth = mark.depth.max(depth);
            weight = weight.saturating_add(mark.weight);
        }
        Mark { depth, weight }
    }

    fn mark_of_level(&self, node: &Node) -> Mark
        requires { parts_below (length self.now) node.now ≡ true }
        ensures { result ≡ mark_of (tree_of self.now node.now) }
    {
        match node {
            Node::Inst(_, args) => one_more(self.mark_of_all(args.as_slice())),
            Node::Array(e) => one_more(self.mark(*e)),
            Node::ByRef(e) => one_more(self.mark(*e)),
            Node::Ptr(e) => one_more(self.mark(*e)),
            Node::Var(_) => Mark::LEAF,
            Node::MVar(_) => Mark::LEAF,
            Node::Missing(_, _) => Mark::LEAF,
            Node::Odd(_) => Mark::LEAF,
        }
    }

    /// The tree of a level: the one that the pool has, or a new one. Memory also where there are 2^32 - 1 trees.
    pub fn intern(&mut self, node: Node) -> Result<Id, Memory>
        requires { parts_below (length self.old) node ≡ true }
        ensures grows { Grows self.old self.new }
        ensures adds { IfOk result (λ _. AddsAtMost self.old self.new (tree_of self.old node)) }
        ensures err { OnErr result (self.new ≡ self.old) }
        ensures spells { IfOk result (λ id. Spells self.new id (tree_of self.old node)) }
    {
        let mark = self.mark_of_level(&node);
        if self.entries.len() >= u32::MAX as usize {
            return Err(Memory);
        }
        let index = put(&mut self.entries, Entry { node, mark })?;
        Ok(Id(index))
    }
}

/// The index of the entry with this level: the one that is there, or this one, put last.
fn put(entries: &mut IndexSet<Entry>, entry: Entry) -> Result<u32, Memory>
    requires sound { IsSound (spelled entries.old.keys) entries.old.keys }
    requires below { parts_below (length (spelled entries.old.keys)) entry.node ≡ true }
    requires marked { entry.mark ≡ mark_of (tree_of (spelled entries.old.keys) entry.node) }
    requires room { length entries.old.keys < 4294967295 }
    ensures ok { IfOk result (λ i. Interned entries.old.keys entries.new.keys i entry.node) }
    ensures err { OnErr result (entries.new.keys ≡ entries.old.keys) }
{
    match entries.insert_full(entry) {
        Ok((index, _)) => Ok(index as u32),
        Err(_) => Err(Memory),
    }
}

pub(crate) fn one_more(mark: Mark) -> Mark
    ensures deep { result.depth ≡ min (mark.depth + 1) 4294967295 }
    ensures heavy { result.weight ≡ min (mark.weight + 1) 4294967295 }
{
    Mark {
        depth: mark.depth.saturating_add(1),
        weight: mark.weight.saturating_add(1),
    }
}
