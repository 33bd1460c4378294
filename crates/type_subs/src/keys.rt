//! Which keys have arguments that fail a constraint.
ghost use Rattle.std.specs.Prelude.{◌≡◌, ◌<◌, true, length, slice_get, IfOk, OnOk};
ghost use Rattle.type_tree.specs.Context.{arguments as arguments_of};
ghost use Rattle.type_pool.specs.Trees.{at, at_all, ids_below, Grows};
ghost use Rattle.type_pool.specs.Keys.{key_at, key_below};
ghost use Rattle.type_pool.specs.Keys as level;
ghost use Rattle.type_pool.specs.Jobs.{SpellAll};
ghost use Rattle.type_subs.specs.Constraints as spec;
ghost use Rattle.type_subs.specs.Faults.{is_constraint_fault};
ghost use Rattle.type_subs.specs.Instances.{formals_level};
ghost use Rattle.type_subs.specs.Notes.{IsNoted};

use crate::canons::{ConstraintNotes, has_canon};
use crate::constraints::any_fails;
use clr_base::{DefId, Memory, MethId};
use sqlite_items::Items;
use std::alloc::Global;
use type_pool::{Id, KeyNode, Node, Pool};
use type_tree::{Formal, World};

fn parts_of(alloc: Global, node: &Node) -> Result<Items<Id>, Memory>
    ensures { IfOk result (λ ids. ids ≡ level.arguments_of node.now) }
{
    match node {
        Node::Inst(_, args) => Ok(Items::from_slice(alloc, args.as_slice())?),
        Node::Array(_)
        | Node::ByRef(_)
        | Node::Ptr(_)
        | Node::Var(_)
        | Node::MVar(_)
        | Node::Missing(_, _)
        | Node::Odd(_) => Ok(Items::new(alloc)),
    }
}

/// The arguments of an instantiation, and none of any other tree.
fn arguments(alloc: Global, pool: &Pool, id: Id) -> Result<Items<Id>, Memory>
    requires { id.0 < length pool.now }
    ensures { IfOk result (λ ids. SpellAll pool.now ids (arguments_of (at pool.now id))) }
{
    parts_of(alloc, pool.node(id))
}

/// The generic parameters of a definition; of a number that none has, none.
fn formals_of_def(world: &World, def: DefId) -> &[Formal]
    ensures { result.now ≡ spec.formals_of_def (slice_get world.now.defs def.0) }
{
    if def.0 < world.def_count() {
        world.def(def).formals.as_slice()
    } else {
        &[]
    }
}

/// The generic parameters of a method; of a number that none has, none.
fn formals_of_method(world: &World, method: MethId) -> &[Formal]
    ensures { result.now ≡ spec.formals_of_method (slice_get world.now.methods method.0) }
{
    if method.0 < world.method_count() {
        world.method(method).formals.as_slice()
    } else {
        &[]
    }
}

fn formals_of_node<'a>(world: &'a World, node: &Node) -> &'a [Formal]
    ensures { result.now ≡ formals_level world.now node.now }
{
    match node {
        Node::Inst(def, _) => formals_of_def(world, *def),
        Node::Array(_)
        | Node::ByRef(_)
        | Node::Ptr(_)
        | Node::Var(_)
        | Node::MVar(_)
        | Node::Missing(_, _)
        | Node::Odd(_) => &[],
    }
}

/// The generic parameters that the arguments of a type are held against.
fn formals_of_type<'a>(world: &'a World, pool: &Pool, id: Id) -> &'a [Formal]
    requires { id.0 < length pool.now }
    ensures { result.now ≡ spec.formals_of_type world.now (at pool.now id) }
{
    formals_of_node(world, pool.node(id))
}

fn type_fails(alloc: Global, world: &World, pool: &mut Pool, id: Id) -> Result<bool, Memory>
    requires { id.0 < length pool.old }
    ensures grows { Grows pool.old pool.new }
    ensures is { IfOk result (λ found. found ≡ spec.type_fails world.now (at pool.old id)) }
{
    let args = arguments(alloc, pool, id)?;
    let args = args.as_slice();
    let formals = formals_of_type(world, pool, id);
    any_fails(alloc, world, pool, formals, args, &[], args)
}

fn method_fails(
    alloc: Global,
    world: &World,
    pool: &mut Pool,
    owner: Id,
    method: MethId,
    args: &[Id],
) -> Result<bool, Memory>
    requires owner { owner.0 < length pool.old }
    requires args { ids_below (length pool.old) args.now ≡ true }
    ensures grows { Grows pool.old pool.new }
    ensures is { IfOk result (λ found. found ≡ spec.method_fails world.now (at pool.old owner) method (at_all pool.old args.now)) }
{
    let types = arguments(alloc, pool, owner)?;
    let formals = formals_of_method(world, method);
    any_fails(alloc, world, pool, formals, types.as_slice(), args, args)
}

fn key_fails(alloc: Global, world: &World, pool: &mut Pool, key: &KeyNode) -> Result<bool, Memory>
    requires { key_below (length pool.old) key.now ≡ true }
    ensures grows { Grows pool.old pool.new }
    ensures is { IfOk result (λ found. found ≡ spec.key_fails world.now (key_at pool.old key.now)) }
{
    match key {
        KeyNode::Tree(id) => type_fails(alloc, world, pool, *id),
        KeyNode::Meth(owner, method, args) => {
            method_fails(alloc, world, pool, *owner, *method, args.as_slice())
        }
    }
}

/// Whether an argument of a key fails a constraint and System.__Canon stands nowhere in the key. The arguments of a type
/// are held against the generic parameters of its definition, a method's own against the method's (ECMA-335 II.10.1.7).
/// After Memory the notes aren't to be used again.
pub fn fails_constraint(
    alloc: Global,
    world: &World,
    pool: &mut Pool,
    notes: &mut ConstraintNotes,
    key: &KeyNode,
) -> Result<bool, Memory>
    requires within { key_below (length pool.old) key.now ≡ true }
    requires noted { IsNoted world.now pool.old notes.old.canons }
    ensures grows { Grows pool.old pool.new }
    ensures noted { OnOk result (IsNoted world.now pool.new notes.new.canons) }
    ensures is { IfOk result (λ found. found ≡ is_constraint_fault world.now (key_at pool.old key.now)) }
{
    if has_canon(world, pool, &mut notes.canons, key)? {
        return Ok(false);
    }
    key_fails(alloc, world, pool, key)
}
