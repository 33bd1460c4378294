//! The definitions that trees instantiate.

ghost use Rattle.std.specs.Prelude.{◌≡◌, ◌<◌, List, length};
ghost use Rattle.type_tree.specs.declared.tree.Ty.{Ty as Tree};
ghost use Rattle.type_pool.specs.Trees.{at};
ghost use Rattle.key_faults.specs.Definitions as spec;
ghost use Rattle.key_faults.specs.Levels.{level};

use clr_base::DefId;
use type_pool::{Id, Node, Pool};
use type_tree::World;

/// A number, where a definition of the world has it.
fn existing(world: &World, def: DefId) -> Option<DefId>
    ensures { result ≡ spec.existing world.now def }
{
    if def.0 < world.def_count() {
        Some(def)
    } else {
        None
    }
}

fn def_at(world: &World, node: &Node) -> Option<DefId>
    ensures { (ts : List Tree) → result ≡ spec.def_at world.now (level ts node.now) }
{
    match node {
        Node::Inst(def, _) => existing(world, *def),
        Node::Array(_)
        | Node::ByRef(_)
        | Node::Ptr(_)
        | Node::Var(_)
        | Node::MVar(_)
        | Node::Missing(_, _)
        | Node::Odd(_) => None,
    }
}

/// The definition of the world that a tree instantiates.
pub fn def_in(world: &World, pool: &Pool, id: Id) -> Option<DefId>
    requires { id.0 < length pool.now }
    ensures { result ≡ spec.def_in world.now (at pool.now id) }
{
    def_at(world, pool.node(id))
}
