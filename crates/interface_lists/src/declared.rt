//! What the definitions of interfaces declare.

ghost use Rattle.std.specs.Prelude.{◌≡◌, ◌<◌, [], true, length, IfOk, OnOk};
ghost use Rattle.type_tree.specs.Subst.{subst_ty, subst_all};
ghost use Rattle.type_pool.specs.Trees.{at, at_all, ids_below, Grows, Spells};
ghost use Rattle.interface_lists.specs.Lists as spec;
ghost use Rattle.interface_lists.specs.Walks.{IsHead, Stacked};

use clr_base::{DefId, Memory};
use method_slots::is_interface;
use sqlite_items::Items;
use std::alloc::Global;
use type_pool::{Id, Node, Pool, from_tree, subst};
use type_tree::{Ty, World};

/// The definition at the head of a tree with the tree's arguments, where there is such a definition.
pub fn head_of(
    alloc: Global,
    world: &World,
    pool: &Pool,
    id: Id,
) -> Result<Option<(DefId, Items<Id>)>, Memory>
    requires { id.0 < length pool.now }
    ensures { IfOk result (λ head. IsHead world.now pool.now (at pool.now id) head) }
{
    match pool.node(id) {
        Node::Inst(def, args) => {
            if def.0 < world.def_count() {
                Ok(Some((*def, Items::from_slice(alloc, args.as_slice())?)))
            } else {
                Ok(None)
            }
        }
        _ => Ok(None),
    }
}

/// Whether a tree is an instantiation of an interface.
pub(crate) fn names_interface(world: &World, pool: &Pool, id: Id) -> bool
    requires { id.0 < length pool.now }
    ensures { result ≡ spec.names_interface world.now (at pool.now id) }
{
    match pool.node(id) {
        Node::Inst(def, _) => def.0 < world.def_count() && is_interface(world.def(*def)),
        _ => false,
    }
}

/// A tree with arguments put in.
pub(crate) fn put_one(pool: &mut Pool, alloc: Global, tree: &Ty, args: &[Id]) -> Result<Id, Memory>
    requires { ids_below (length pool.old) args.now ≡ true }
    ensures grows { Grows pool.old pool.new }
    ensures spells { IfOk result (λ r. Spells pool.new r (subst_ty (at_all pool.old args.now) [] tree.now)) }
{
    let open = from_tree(tree, pool, alloc)?;
    subst(pool, alloc, open, args, &[])
}

/// Puts trees with arguments put in on a stack, the first on top.
pub(crate) fn push_all(
    pool: &mut Pool,
    alloc: Global,
    trees: &[Ty],
    args: &[Id],
    todo: &mut Items<Id>,
) -> Result<(), Memory>
    requires args { ids_below (length pool.old) args.now ≡ true }
    requires todo { ids_below (length pool.old) todo.old ≡ true }
    ensures grows { Grows pool.old pool.new }
    ensures stacked { OnOk result (Stacked pool.old pool.new todo.old todo.new (subst_all (at_all pool.old args.now) [] trees.now)) }
{
    let mut left = trees.len();
    while left > 0 {
        left -= 1;
        let id = put_one(pool, alloc, &trees[left], args)?;
        todo.push(id)?;
    }
    Ok(())
}

/// Puts what the definition at the head of a tree declares on a stack, with the tree's arguments put
/// in, the first on top.
pub(crate) fn push_declared(
    pool: &mut Pool,
    alloc: Global,
    world: &World,
    id: Id,
    todo: &mut Items<Id>,
) -> Result<(), Memory>
    requires within { id.0 < length pool.old }
    requires todo { ids_below (length pool.old) todo.old ≡ true }
    ensures grows { Grows pool.old pool.new }
    ensures stacked { OnOk result (Stacked pool.old pool.new todo.old todo.new (spec.declared world.now (at pool.old id))) }
{
    match head_of(alloc, world, pool, id)? {
        Some((def, args)) => push_all(
            pool,
            alloc,
            world.def(def).interfaces.as_slice(),
            args.as_slice(),
            todo,
        ),
        None => Ok(()),
    }
}
