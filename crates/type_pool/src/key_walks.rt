//! Keys over a pool with variables put in, and their canonical forms.

ghost use Rattle.std.specs.Prelude.{◌≡◌, ◌<◌, true, length, Some, IfOk, OnOk};
ghost use Rattle.type_tree.specs.Canon as canonical;
ghost use Rattle.type_tree.specs.Context as contexts;
ghost use Rattle.type_tree.specs.Subst as put;
ghost use Rattle.type_pool.specs.Jobs.{AllNoted, IsPutting, SpellAll, subst_by};
ghost use Rattle.type_pool.specs.Keys.{arguments_of, key_at, key_below, SpellsKey};
ghost use Rattle.type_pool.specs.Trees.{at, at_all, ids_below, Grows};

use crate::arena::Pool;
use crate::canonical::{canon_in, shared_all};
use crate::copying::Memo;
use crate::key_nodes::KeyNode;
use crate::nodes::{Id, Node};
use crate::putting::{put_in, put_in_all};
use clr_base::Memory;
use sqlite_items::Items;
use std::alloc::Global;
use std::collections::HashMap;
use type_tree::World;

/// The canonical form of a key, by notes that serve many keys of one world. A method key has that of
/// its owner, and its arguments in their shared forms.
pub fn canon_key(
    pool: &mut Pool,
    alloc: Global,
    key: &KeyNode,
    world: &World,
    memo: &mut Memo,
) -> Result<KeyNode, Memory>
    requires within { key_below (length pool.old) key.now ≡ true }
    requires noted { AllNoted (canonical.canon_ty world.now) pool.old memo.old }
    ensures grows { Grows pool.old pool.new }
    ensures noted { OnOk result (AllNoted (canonical.canon_ty world.now) pool.new memo.new) }
    ensures spells { IfOk result (λ k. SpellsKey pool.new k (canonical.canon world.now (key_at pool.old key.now))) }
{
    match key {
        KeyNode::Tree(id) => {
            let id = canon_in(pool, alloc, *id, world, memo)?;
            Ok(KeyNode::Tree(id))
        }
        KeyNode::Meth(owner, method, args) => {
            let owner = canon_in(pool, alloc, *owner, world, memo)?;
            let above = pool.len();
            let args = shared_all(pool, alloc, above, args.as_slice(), world, memo)?;
            Ok(KeyNode::Meth(owner, *method, args))
        }
    }
}

/// The key with `types` and `methods` put in for its variables; a variable past its list stays.
pub fn subst_key(
    pool: &mut Pool,
    alloc: Global,
    key: &KeyNode,
    types: &[Id],
    methods: &[Id],
) -> Result<KeyNode, Memory>
    requires within { key_below (length pool.old) key.now ≡ true }
    requires types_in { ids_below (length pool.old) types.now ≡ true }
    requires methods_in { ids_below (length pool.old) methods.now ≡ true }
    ensures grows { Grows pool.old pool.new }
    ensures spells { IfOk result (λ k. SpellsKey pool.new k (put.subst (key_at pool.old key.now) (at_all pool.old types.now) (at_all pool.old methods.now))) }
{
    let mut memo = HashMap::new(alloc);
    put_in_key(pool, alloc, key, types, methods, &mut memo)
}

fn put_in_key(
    pool: &mut Pool,
    alloc: Global,
    key: &KeyNode,
    types: &[Id],
    methods: &[Id],
    memo: &mut Memo,
) -> Result<KeyNode, Memory>
    requires within { key_below (length pool.old) key.now ≡ true }
    requires job { IsPutting (subst_by pool.old types.now methods.now) types.now methods.now pool.old memo.old }
    ensures grows { Grows pool.old pool.new }
    ensures spells { IfOk result (λ k. SpellsKey pool.new k (put.subst (key_at pool.old key.now) (at_all pool.old types.now) (at_all pool.old methods.now))) }
{
    match key {
        KeyNode::Tree(id) => {
            let id = put_in(pool, alloc, *id, types, methods, memo)?;
            Ok(KeyNode::Tree(id))
        }
        KeyNode::Meth(owner, method, args) => {
            let owner = put_in(pool, alloc, *owner, types, methods, memo)?;
            let above = pool.len();
            let args = put_in_all(pool, alloc, above, args.as_slice(), types, methods, memo)?;
            Ok(KeyNode::Meth(owner, *method, args))
        }
    }
}

/// The arguments of a level, none where it is no instantiation.
fn level_arguments(node: &Node) -> &[Id]
    ensures { result.now ≡ arguments_of node.now }
{
    match node {
        Node::Inst(_, args) => args.as_slice(),
        Node::Array(_) => &[],
        Node::ByRef(_) => &[],
        Node::Ptr(_) => &[],
        Node::Var(_) => &[],
        Node::MVar(_) => &[],
        Node::Missing(_, _) => &[],
        Node::Odd(_) => &[],
    }
}

/// The arguments of a type, none where it is no instantiation.
fn arguments(pool: &Pool, alloc: Global, id: Id) -> Result<Items<Id>, Memory>
    requires { id.0 < length pool.now }
    ensures { IfOk result (λ ids. SpellAll pool.now ids (contexts.arguments (at pool.now id))) }
{
    let args = level_arguments(pool.node(id));
    Ok(Items::from_slice(alloc, args)?)
}

/// The key that a signature stands for in a context, a loaded type or method: a type's variables are
/// put in from the type, or from the type that owns the method, and a method's from the method.
pub fn key_of(
    pool: &mut Pool,
    alloc: Global,
    context: &KeyNode,
    sig: &KeyNode,
) -> Result<KeyNode, Memory>
    requires within { key_below (length pool.old) context.now ≡ true }
    requires sig_in { key_below (length pool.old) sig.now ≡ true }
    ensures grows { Grows pool.old pool.new }
    ensures spells { IfOk result (λ k. SpellsKey pool.new k (contexts.key_of (Some (key_at pool.old context.now)) (key_at pool.old sig.now))) }
{
    match context {
        KeyNode::Tree(id) => {
            let types = arguments(pool, alloc, *id)?;
            subst_key(pool, alloc, sig, types.as_slice(), &[])
        }
        KeyNode::Meth(owner, _, args) => {
            let types = arguments(pool, alloc, *owner)?;
            subst_key(pool, alloc, sig, types.as_slice(), args.as_slice())
        }
    }
}
