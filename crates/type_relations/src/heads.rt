//! What stands at the head of a tree.
ghost use Rattle.std.specs.Prelude.{◌≡◌, ◌<◌, true, length, IfOk};
ghost use Rattle.type_tree.specs.Context.{arguments as arguments_of};
ghost use Rattle.type_pool.specs.Trees.{at};
ghost use Rattle.type_pool.specs.Jobs.{SpellAll};
ghost use Rattle.type_relations.specs.Heads.{IsHead};

use clr_base::{DefId, Memory};
use sqlite_items::Items;
use std::alloc::Global;
use type_pool::{Id, Node, Pool};
use type_tree::World;

/// The head of a tree.
#[derive(Drop)]
pub enum Head {
    /// An instantiation of a definition of the world, and its arguments.
    Def(DefId, Items<Id>),
    /// An array, and its element.
    Array(Id),
    /// Any other tree.
    Other,
}

pub(crate) fn head_of(alloc: Global, world: &World, pool: &Pool, id: Id) -> Result<Head, Memory>
    requires { id.0 < length pool.now }
    ensures { IfOk result (λ head. IsHead world.now pool.now (at pool.now id) head) }
{
    match pool.node(id) {
        Node::Inst(def, args) => {
            if def.0 < world.def_count() {
                Ok(Head::Def(*def, Items::from_slice(alloc, args.as_slice())?))
            } else {
                Ok(Head::Other)
            }
        }
        Node::Array(part) => Ok(Head::Array(*part)),
        Node::ByRef(_) => Ok(Head::Other),
        Node::Ptr(_) => Ok(Head::Other),
        Node::Var(_) => Ok(Head::Other),
        Node::MVar(_) => Ok(Head::Other),
        Node::Missing(_, _) => Ok(Head::Other),
        Node::Odd(_) => Ok(Head::Other),
    }
}
