//! Canonical forms in a pool.

ghost use Rattle.std.specs.Prelude.{◌≡◌, ◌<◌, ◌≤◌, [], true, length, map, IfOk, OnOk};
ghost use Rattle.type_tree.specs.Canon.{canon_ty, shared_form};
ghost use Rattle.type_pool.specs.Trees.{at, at_all, tree_of, ids_below, parts_below, Grows, Spells};
ghost use Rattle.type_pool.specs.Jobs.{AllNoted, SpellAll};
ghost use Rattle.type_pool.specs.Kinds.{is_reference_level};

use crate::arena::Pool;
use crate::copying::{Memo, copy_node, note, noted};
use crate::nodes::{Id, Node};
use clr_base::Memory;
use sqlite_items::Items;
use std::alloc::Global;
use std::collections::HashMap;
use type_tree::World;

/// Whether the tree of the level is a reference type.
fn is_reference(world: &World, node: &Node) -> bool
    ensures { result ≡ is_reference_level world.now node.now }
{
    match node {
        Node::Inst(def, _) => !world.is_value_def(*def),
        Node::Array(_) => true,
        Node::Missing(_, is_value) => !*is_value,
        Node::ByRef(_) => false,
        Node::Ptr(_) => false,
        Node::Var(_) => false,
        Node::MVar(_) => false,
        Node::Odd(_) => false,
    }
}

#[cycle(canon)]
pub(crate) fn canon_in(
    pool: &mut Pool,
    alloc: Global,
    id: Id,
    world: &World,
    memo: &mut Memo,
) -> Result<Id, Memory>
    requires within { id.0 < length pool.old }
    requires job { AllNoted (canon_ty world.now) pool.old memo.old }
    ensures grows { Grows pool.old pool.new }
    ensures job { OnOk result (AllNoted (canon_ty world.now) pool.new memo.new) }
    ensures spells { IfOk result (λ r. Spells pool.new r (canon_ty world.now (at pool.old id))) }
{
    if let Some(became) = noted(memo, id) {
        return Ok(became);
    }
    let node = copy_node(alloc, pool.node(id))?;
    let became = canon_in_level(pool, alloc, id, node, world, memo)?;
    note(memo, id, became)?;
    Ok(became)
}

#[cycle(canon)]
fn canon_in_level(
    pool: &mut Pool,
    alloc: Global,
    id: Id,
    node: Node,
    world: &World,
    memo: &mut Memo,
) -> Result<Id, Memory>
    requires within { id.0 < length pool.old }
    requires level { tree_of pool.old node ≡ at pool.old id }
    requires below { parts_below id.0 node ≡ true }
    requires job { AllNoted (canon_ty world.now) pool.old memo.old }
    ensures grows { Grows pool.old pool.new }
    ensures job { OnOk result (AllNoted (canon_ty world.now) pool.new memo.new) }
    ensures spells { IfOk result (λ r. Spells pool.new r (canon_ty world.now (at pool.old id))) }
{
    match node {
        Node::Inst(def, args) => {
            let parts = shared_all(pool, alloc, id.0 as usize, args.as_slice(), world, memo)?;
            pool.intern(Node::Inst(def, parts))
        }
        Node::Array(e) => {
            let part = shared_in(pool, alloc, e, world, memo)?;
            pool.intern(Node::Array(part))
        }
        Node::ByRef(_) => Ok(id),
        Node::Ptr(_) => Ok(id),
        Node::Var(_) => Ok(id),
        Node::MVar(_) => Ok(id),
        Node::Missing(_, _) => Ok(id),
        Node::Odd(_) => Ok(id),
    }
}

/// System.__Canon for a reference type, else the canonical form.
#[cycle(canon)]
fn shared_in(
    pool: &mut Pool,
    alloc: Global,
    id: Id,
    world: &World,
    memo: &mut Memo,
) -> Result<Id, Memory>
    requires within { id.0 < length pool.old }
    requires job { AllNoted (canon_ty world.now) pool.old memo.old }
    ensures grows { Grows pool.old pool.new }
    ensures job { OnOk result (AllNoted (canon_ty world.now) pool.new memo.new) }
    ensures spells { IfOk result (λ r. Spells pool.new r (shared_form world.now (at pool.old id))) }
{
    if is_reference(world, pool.node(id)) {
        pool.intern(Node::Inst(world.canon(), Items::new(alloc)))
    } else {
        canon_in(pool, alloc, id, world, memo)
    }
}

#[cycle(canon)]
pub(crate) fn shared_all(
    pool: &mut Pool,
    alloc: Global,
    above: usize,
    ids: &[Id],
    world: &World,
    memo: &mut Memo,
) -> Result<Items<Id>, Memory>
    requires within { above ≤ length pool.old }
    requires below { ids_below above ids.now ≡ true }
    requires job { AllNoted (canon_ty world.now) pool.old memo.old }
    ensures grows { Grows pool.old pool.new }
    ensures job { OnOk result (AllNoted (canon_ty world.now) pool.new memo.new) }
    ensures spells { IfOk result (λ rs. SpellAll pool.new rs (map (shared_form world.now) (at_all pool.old ids.now))) }
{
    let mut done = Items::new(alloc);
    for id in ids {
        done.push(shared_in(pool, alloc, *id, world, memo)?)?;
    }
    Ok(done)
}

/// The canonical form of a tree, by notes that serve many trees of one world. Recurses as deep as the tree: test its mark
/// first. After Memory the notes aren't to be used again.
pub fn canon_noted(
    pool: &mut Pool,
    alloc: Global,
    id: Id,
    world: &World,
    memo: &mut Memo,
) -> Result<Id, Memory>
    requires within { id.0 < length pool.old }
    requires noted { AllNoted (canon_ty world.now) pool.old memo.old }
    ensures grows { Grows pool.old pool.new }
    ensures noted { OnOk result (AllNoted (canon_ty world.now) pool.new memo.new) }
    ensures spells { IfOk result (λ r. Spells pool.new r (canon_ty world.now (at pool.old id))) }
{
    canon_in(pool, alloc, id, world, memo)
}

/// The canonical form of a tree. Recurses as deep as the tree: test its mark first.
pub fn canon(pool: &mut Pool, alloc: Global, id: Id, world: &World) -> Result<Id, Memory>
    requires { id.0 < length pool.old }
    ensures grows { Grows pool.old pool.new }
    ensures spells { IfOk result (λ r. Spells pool.new r (canon_ty world.now (at pool.old id))) }
{
    let mut memo = HashMap::new(alloc);
    canon_in(pool, alloc, id, world, &mut memo)
}
