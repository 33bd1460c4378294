//! Faults that keys have by their form.

ghost use Rattle.std.specs.Prelude.{◌≡◌, ◌<◌, true, List, length};
ghost use Rattle.std.specs.List.{list_any};
ghost use Rattle.type_tree.specs.declared.tree.Ty.{Ty as Tree};
ghost use Rattle.type_pool.specs.Trees.{at, at_all, ids_below, parts_below};
ghost use Rattle.type_pool.specs.Keys.{key_at, key_below};
ghost use Rattle.key_faults.specs.Levels.{level};
ghost use Rattle.key_faults.specs.Shapes as spec;

use clr_base::MethId;
use core_types::CoreType;
use type_pool::{Id, KeyNode, Node, Pool};
use type_tree::World;

fn arity_fault_at(world: &World, node: &Node) -> bool
    ensures { (ts : List Tree) → result ≡ spec.has_arity_fault_at world.now (level ts node.now) }
{
    match node {
        Node::Inst(def, args) => {
            def.0 < world.def_count() && args.len() != world.def(*def).formals.len()
        }
        Node::Array(_)
        | Node::ByRef(_)
        | Node::Ptr(_)
        | Node::Var(_)
        | Node::MVar(_)
        | Node::Missing(_, _)
        | Node::Odd(_) => false,
    }
}

fn method_arity_fault(world: &World, method: MethId, args: &[Id]) -> bool
    ensures { (ts : List Tree) → result ≡ spec.method_arity_fault world.now method (at_all ts args.now) }
{
    method.0 < world.method_count() && args.len() != world.method(method).formals.len()
}

/// Whether the arguments of a type, or a method's own, aren't as many as the generic parameters: the fault
/// Arity.
pub fn has_arity_fault(world: &World, pool: &Pool, key: &KeyNode) -> bool
    requires { key_below (length pool.now) key.now ≡ true }
    ensures { result ≡ spec.has_arity_fault world.now (key_at pool.now key.now) }
{
    match key {
        KeyNode::Tree(id) => arity_fault_at(world, pool.node(*id)),
        KeyNode::Meth(_, method, args) => method_arity_fault(world, *method, args.as_slice()),
    }
}

fn no_argument_at(node: &Node) -> bool
    ensures { (ts : List Tree) → result ≡ spec.is_no_argument_at (level ts node.now) }
{
    match node {
        Node::Inst(def, _) => def.0 == CoreType::Void.def().0,
        Node::ByRef(_) | Node::Ptr(_) | Node::Var(_) | Node::MVar(_) | Node::Odd(_) => true,
        Node::Array(_) | Node::Missing(_, _) => false,
    }
}

/// Whether a tree may be no argument and no element.
fn is_no_argument(pool: &Pool, id: Id) -> bool
    requires { id.0 < length pool.now }
    ensures { result ≡ spec.is_no_argument (at pool.now id) }
{
    no_argument_at(pool.node(id))
}

fn any_no_argument(pool: &Pool, ids: &[Id]) -> bool
    requires { ids_below (length pool.now) ids.now ≡ true }
    ensures { result ≡ list_any spec.is_no_argument (at_all pool.now ids.now) }
{
    for id in ids {
        if is_no_argument(pool, *id) {
            return true;
        }
    }
    false
}

fn bad_argument_at(pool: &Pool, node: &Node) -> bool
    requires { parts_below (length pool.now) node.now ≡ true }
    ensures { result ≡ spec.has_bad_argument_at (level pool.now node.now) }
{
    match node {
        Node::Inst(_, args) => any_no_argument(pool, args.as_slice()),
        Node::Array(part) => is_no_argument(pool, *part),
        Node::Var(_) | Node::MVar(_) => true,
        Node::ByRef(_) | Node::Ptr(_) | Node::Missing(_, _) | Node::Odd(_) => false,
    }
}

fn tree_bad_argument(pool: &Pool, id: Id) -> bool
    requires { id.0 < length pool.now }
    ensures { result ≡ spec.has_bad_argument_of (at pool.now id) }
{
    bad_argument_at(pool, pool.node(id))
}

/// Whether an argument or an array's element is void, a reference, a pointer, a form outside the profile or
/// a variable, or the tree itself is a variable: the fault BadArgument.
pub fn has_bad_argument(pool: &Pool, key: &KeyNode) -> bool
    requires { key_below (length pool.now) key.now ≡ true }
    ensures { result ≡ spec.has_bad_argument (key_at pool.now key.now) }
{
    match key {
        KeyNode::Tree(id) => tree_bad_argument(pool, *id),
        KeyNode::Meth(_, _, args) => any_no_argument(pool, args.as_slice()),
    }
}

fn missing_at(node: &Node) -> bool
    ensures { (ts : List Tree) → result ≡ spec.is_missing_at (level ts node.now) }
{
    match node {
        Node::Missing(_, _) => true,
        Node::Inst(_, _)
        | Node::Array(_)
        | Node::ByRef(_)
        | Node::Ptr(_)
        | Node::Var(_)
        | Node::MVar(_)
        | Node::Odd(_) => false,
    }
}

/// Whether a tree is a name that no definition has.
pub(crate) fn is_missing(pool: &Pool, id: Id) -> bool
    requires { id.0 < length pool.now }
    ensures { result ≡ spec.is_missing (at pool.now id) }
{
    missing_at(pool.node(id))
}

fn outside_at(node: &Node) -> bool
    ensures { (ts : List Tree) → result ≡ spec.is_outside_at (level ts node.now) }
{
    match node {
        Node::ByRef(_) | Node::Ptr(_) | Node::Odd(_) => true,
        Node::Inst(_, _) | Node::Array(_) | Node::Var(_) | Node::MVar(_) | Node::Missing(_, _) =>
            false,
    }
}

/// Whether a tree is a reference, a pointer or a form outside the profile.
pub(crate) fn is_outside(pool: &Pool, id: Id) -> bool
    requires { id.0 < length pool.now }
    ensures { result ≡ spec.is_outside (at pool.now id) }
{
    outside_at(pool.node(id))
}
