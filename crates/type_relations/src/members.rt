//! The direct members of keys.
ghost use Rattle.std.specs.Prelude.{◌≡◌, ◌++◌, ◌∷◌, [], ◌<◌, true, length, map, IfOk, OnOk};
ghost use Rattle.type_tree.specs.declared.tree.Key.TheVariants.{Tree as TreeOf};
ghost use Rattle.type_tree.specs.Canon.{canon, canon_ty};
ghost use Rattle.type_tree.specs.Context.{arguments as arguments_of};
ghost use Rattle.type_pool.specs.Trees.{at, Grows};
ghost use Rattle.type_pool.specs.Jobs.{AllNoted, SpellAll};
ghost use Rattle.type_pool.specs.Keys.{key_at, key_below, keys_below};
ghost use Rattle.type_pool.specs.Keys as level;
ghost use Rattle.key_closure.specs.Bounds.{keys_at};
ghost use Rattle.type_relations.specs.Relations as spec;

use crate::contents::push_contents;
use crate::exact::bases;
use crate::faults::Faults;
use crate::lists::push_ids;
use crate::supers::as_keys;
use clr_base::Memory;
use key_closure::Needs;
use sqlite_items::Items;
use std::alloc::Global;
use type_pool::{Id, KeyNode, Memo, Node, Pool, canon_key};
use type_tree::World;

fn parts_of(alloc: Global, node: &Node) -> Result<Items<Id>, Memory>
    ensures { IfOk result (λ ids. ids ≡ level.arguments_of node.now) }
{
    match node {
        Node::Inst(_, args) => Ok(Items::from_slice(alloc, args.as_slice())?),
        Node::Array(_)
        | Node::ByRef(_)
        | Node::Ptr(_)
        | Node::Var(_)
        | Node::MVar(_)
        | Node::Missing(_, _)
        | Node::Odd(_) => Ok(Items::new(alloc)),
    }
}

/// The arguments of an instantiation, and none of any other tree.
fn arguments(alloc: Global, pool: &Pool, id: Id) -> Result<Items<Id>, Memory>
    requires { id.0 < length pool.now }
    ensures { IfOk result (λ ids. SpellAll pool.now ids (arguments_of (at pool.now id))) }
{
    parts_of(alloc, pool.node(id))
}

/// What a type stands on: its arguments, exact parent and interfaces, and contents.
fn of_type(pool: &mut Pool, alloc: Global, world: &World, id: Id) -> Result<Items<Id>, Memory>
    requires { id.0 < length pool.old }
    ensures grows { Grows pool.old pool.new }
    ensures spells { IfOk result (λ ids. SpellAll pool.new ids (spec.stands_on world.now (TreeOf (at pool.old id)))) }
{
    let mut ids = arguments(alloc, pool, id)?;
    let more = bases(pool, alloc, world, id)?;
    push_ids(&mut ids, more.as_slice())?;
    push_contents(pool, alloc, world, &mut ids, id)?;
    Ok(ids)
}

/// What a key stands on but its canonical form.
fn stands_on(
    pool: &mut Pool,
    alloc: Global,
    world: &World,
    key: &KeyNode,
) -> Result<Items<Id>, Memory>
    requires { key_below (length pool.old) key.now ≡ true }
    ensures grows { Grows pool.old pool.new }
    ensures spells { IfOk result (λ ids. SpellAll pool.new ids (spec.stands_on world.now (key_at pool.old key.now))) }
{
    match key {
        KeyNode::Tree(id) => of_type(pool, alloc, world, *id),
        KeyNode::Meth(owner, _, args) => {
            let mut ids = Items::new(alloc);
            ids.push(*owner)?;
            push_ids(&mut ids, args.as_slice())?;
            Ok(ids)
        }
    }
}

/// The direct members of a key without a fault of its own, in order.
fn members_of(
    pool: &mut Pool,
    alloc: Global,
    world: &World,
    memo: &mut Memo,
    key: &KeyNode,
) -> Result<Items<KeyNode>, Memory>
    requires within { key_below (length pool.old) key.now ≡ true }
    requires noted { AllNoted (canon_ty world.now) pool.old memo.old }
    ensures grows { Grows pool.old pool.new }
    ensures noted { OnOk result (AllNoted (canon_ty world.now) pool.new memo.new) }
    ensures within { IfOk result (λ keys. keys_below (length pool.new) keys ≡ true) }
    ensures spells { IfOk result (λ keys. keys_at pool.new keys ≡ map TreeOf (spec.stands_on world.now (key_at pool.old key.now)) ++ canon world.now (key_at pool.old key.now) ∷ []) }
{
    let canonical = canon_key(pool, alloc, key, world, memo)?;
    let ids = stands_on(pool, alloc, world, key)?;
    let mut keys = as_keys(alloc, pool, ids.as_slice())?;
    keys.push(canonical)?;
    Ok(keys)
}

/// What was found of members before: canonical forms, and what faults note.
#[derive(Drop)]
pub struct MemberNotes<N> {
    pub canonical: Memo,
    pub faults: N,
}

/// The relation of a key to its direct members, in order. Of a type: its arguments, exact parent, exact declared
/// interfaces, an array's element or the types of own fields that are value types, instance and static, and its canonical
/// form. Of a method: its owner, its arguments, its canonical form. A key with a fault of its own has none (ECMA-335
/// I.8.9.9, II.10.1, II.16.1).
#[derive(Drop)]
pub struct Members<F> {
    pub faults: F,
}

impl<F: Faults> Needs for Members<F> {
    ghost use Rattle.type_tree.specs.Canon.{canon_ty};
    ghost use Rattle.type_pool.specs.Jobs.{AllNoted};
    ghost use Rattle.type_relations.specs.Relations as spec;

    type Notes = MemberNotes<F::Notes>;

    ghost needs = { λ s w. spec.members_of (F.faulty s.faults w) w };

    ghost noted = { λ s w ts notes. AllNoted (canon_ty w) ts notes.canonical × F.right s.faults w ts notes.faults };

    fn direct(
        &self,
        alloc: Global,
        world: &World,
        pool: &mut Pool,
        notes: &mut MemberNotes<F::Notes>,
        key: &KeyNode,
    ) -> Result<Items<KeyNode>, Memory> {
        if self
            .faults
            .has_fault(alloc, world, pool, &mut notes.faults, key)?
        {
            return Ok(Items::new(alloc));
        }
        members_of(pool, alloc, world, &mut notes.canonical, key)
    }
}
