//! What a type holds by value: an array's element, and the value types of own fields.
ghost use Rattle.std.specs.Prelude.{◌≡◌, ◌++◌, ◌∷◌, [], ◌<◌, true, length, filter, Some, OnOk, IsTrue};
ghost use Rattle.type_tree.specs.Fits.{def_fits};
ghost use Rattle.type_tree.specs.Kinds as kinds;
ghost use Rattle.type_tree.specs.Subst.{subst_ty};
ghost use Rattle.type_tree.specs.Whole.{counts};
ghost use Rattle.type_pool.specs.Trees.{at, at_all, ids_below, Grows};
ghost use Rattle.type_pool.specs.Jobs.{SpellAll};
ghost use Rattle.type_relations.specs.Heads as heads;
ghost use Rattle.type_relations.specs.Relations as spec;

use crate::heads::{Head, head_of};
use crate::lists::with_args;
use clr_base::{FieldId, Memory};
use sqlite_items::Items;
use std::alloc::Global;
use type_pool::{Id, Node, Pool};
use type_tree::{Def, Ty, World};

fn is_value_node(world: &World, node: &Node) -> bool
    ensures { result ≡ heads.is_value_level world.now node.now }
{
    match node {
        Node::Inst(def, _) => world.is_value_def(*def),
        Node::Missing(_, value) => *value,
        Node::Array(_)
        | Node::ByRef(_)
        | Node::Ptr(_)
        | Node::Var(_)
        | Node::MVar(_)
        | Node::Odd(_) => false,
    }
}

/// Whether a tree is a value type.
pub fn is_value(pool: &Pool, world: &World, id: Id) -> bool
    requires { id.0 < length pool.now }
    ensures { result ≡ kinds.is_value world.now (at pool.now id) }
{
    is_value_node(world, pool.node(id))
}

/// Puts a tree last where it is a value type.
fn push_value(pool: &Pool, world: &World, ids: &mut Items<Id>, id: Id) -> Result<(), Memory>
    requires { id.0 < length pool.now }
    ensures { OnOk result (ids.new ≡ ids.old ++ filter (λ a. kinds.is_value world.now (at pool.now a)) (id ∷ [])) }
{
    if is_value(pool, world, id) {
        ids.push(id)?;
    }
    Ok(())
}

/// Puts the type of a field last where it is a value type, with these arguments put in.
fn push_field(
    pool: &mut Pool,
    alloc: Global,
    world: &World,
    ids: &mut Items<Id>,
    tree: &Ty,
    args: &[Id],
) -> Result<(), Memory>
    requires args { ids_below (length pool.old) args.now ≡ true }
    requires ids { ids_below (length pool.old) ids.old ≡ true }
    ensures grows { Grows pool.old pool.new }
    ensures adds { OnOk result (SpellAll pool.new ids.new (at_all pool.old ids.old ++ filter (kinds.is_value world.now) (subst_ty (at_all pool.old args.now) [] tree.now ∷ []))) }
{
    let put = with_args(pool, alloc, tree, args)?;
    push_value(pool, world, ids, put)
}

/// Puts the value types of a definition's own fields last, instance and static.
fn push_fields(
    pool: &mut Pool,
    alloc: Global,
    world: &World,
    ids: &mut Items<Id>,
    def: &Def,
    args: &[Id],
) -> Result<(), Memory>
    requires def { IsTrue (def_fits (counts world.now) def.now) }
    requires args { ids_below (length pool.old) args.now ≡ true }
    requires ids { ids_below (length pool.old) ids.old ≡ true }
    ensures grows { Grows pool.old pool.new }
    ensures adds { OnOk result (SpellAll pool.new ids.new (at_all pool.old ids.old ++ spec.value_fields_of world.now (at_all pool.old args.now) (Some def.now))) }
{
    world.whole();
    for number in 0..def.fields {
        let field = world.field(FieldId(def.first_field + number));
        push_field(pool, alloc, world, ids, &field.ty, args)?;
    }
    Ok(())
}

/// Puts an array's element last, or the value types of the own fields of an instantiation.
pub(crate) fn push_contents(
    pool: &mut Pool,
    alloc: Global,
    world: &World,
    ids: &mut Items<Id>,
    id: Id,
) -> Result<(), Memory>
    requires id { id.0 < length pool.old }
    requires ids { ids_below (length pool.old) ids.old ≡ true }
    ensures grows { Grows pool.old pool.new }
    ensures adds { OnOk result (SpellAll pool.new ids.new (at_all pool.old ids.old ++ spec.contents world.now (at pool.old id))) }
{
    match head_of(alloc, world, pool, id)? {
        Head::Def(def, args) => {
            push_fields(pool, alloc, world, ids, world.def(def), args.as_slice())
        }
        Head::Array(part) => {
            ids.push(part)?;
            Ok(())
        }
        Head::Other => Ok(()),
    }
}
