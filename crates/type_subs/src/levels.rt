//! Which levels are those of value types and of reference types, and what an array's is.
ghost use Rattle.std.specs.Prelude.{◌≡◌, ◌<◌, length, option_map};
ghost use Rattle.std.specs.Option.{IfSome};
ghost use Rattle.type_tree.specs.Kinds as kinds;
ghost use Rattle.type_pool.specs.Kinds.{is_reference_level};
ghost use Rattle.type_pool.specs.Trees.{at};
ghost use Rattle.type_relations.specs.Heads.{is_value_level};
ghost use Rattle.type_subs.specs.Levels as spec;

use type_pool::{Id, Node, Pool};
use type_tree::World;

fn is_value_node(world: &World, node: &Node) -> bool
    ensures { result ≡ is_value_level world.now node.now }
{
    match node {
        Node::Inst(def, _) => world.is_value_def(*def),
        Node::Missing(_, value) => *value,
        Node::Array(_)
        | Node::ByRef(_)
        | Node::Ptr(_)
        | Node::Var(_)
        | Node::MVar(_)
        | Node::Odd(_) => false,
    }
}

fn is_reference_node(world: &World, node: &Node) -> bool
    ensures { result ≡ is_reference_level world.now node.now }
{
    match node {
        Node::Inst(def, _) => !world.is_value_def(*def),
        Node::Array(_) => true,
        Node::Missing(_, value) => !*value,
        Node::ByRef(_) | Node::Ptr(_) | Node::Var(_) | Node::MVar(_) | Node::Odd(_) => false,
    }
}

/// Whether a tree is a value type.
pub(crate) fn is_value(world: &World, pool: &Pool, id: Id) -> bool
    requires { id.0 < length pool.now }
    ensures { result ≡ kinds.is_value world.now (at pool.now id) }
{
    is_value_node(world, pool.node(id))
}

/// Whether a tree is a reference type.
pub(crate) fn is_reference(world: &World, pool: &Pool, id: Id) -> bool
    requires { id.0 < length pool.now }
    ensures { result ≡ kinds.is_reference world.now (at pool.now id) }
{
    is_reference_node(world, pool.node(id))
}

fn element_node(node: &Node) -> Option<Id>
    ensures { result ≡ spec.element_level node.now }
{
    match node {
        Node::Array(part) => Some(*part),
        Node::Inst(_, _)
        | Node::ByRef(_)
        | Node::Ptr(_)
        | Node::Var(_)
        | Node::MVar(_)
        | Node::Missing(_, _)
        | Node::Odd(_) => None,
    }
}

/// The element of an array, and none of any other tree.
pub(crate) fn element(pool: &Pool, id: Id) -> Option<Id>
    requires { id.0 < length pool.now }
    ensures is { option_map (at pool.now) result ≡ spec.element (at pool.now id) }
    ensures below { IfSome result (λ part. part.0 < id.0) }
{
    element_node(pool.node(id))
}
