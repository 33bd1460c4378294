//! All parents and interfaces of a type.
ghost use Rattle.std.specs.Prelude.{◌≡◌, true, length, map, IfOk, OnOk};
ghost use Rattle.type_tree.specs.declared.tree.Key.TheVariants.{Tree as TreeOf};
ghost use Rattle.type_pool.specs.Trees.{at_all, ids_below, Grows};
ghost use Rattle.type_pool.specs.Keys.{key_at, key_below, keys_below};
ghost use Rattle.key_closure.specs.Bounds.{keys_at};

use crate::exact::bases;
use clr_base::Memory;
use key_closure::Needs;
use sqlite_items::Items;
use std::alloc::Global;
use type_pool::{Id, KeyNode, Pool};
use type_tree::World;

/// Trees as keys.
pub(crate) fn as_keys(alloc: Global, pool: &Pool, ids: &[Id]) -> Result<Items<KeyNode>, Memory>
    requires { ids_below (length pool.now) ids.now ≡ true }
    ensures within { IfOk result (λ keys. keys_below (length pool.now) keys ≡ true) }
    ensures are { IfOk result (λ keys. keys_at pool.now keys ≡ map TreeOf (at_all pool.now ids.now)) }
{
    let mut keys = Items::new(alloc);
    for id in ids {
        keys.push(KeyNode::Tree(*id))?;
    }
    Ok(keys)
}

/// The relation of a type to its parent and to the interfaces that it declares: its closure is the type and its supers.
/// A method has none.
pub struct Supers;

impl Needs for Supers {
    ghost use Rattle.std.specs.Prelude.{List};
    ghost use Rattle.type_tree.specs.declared.tree.Ty.{Ty};
    ghost use Rattle.type_relations.specs.Relations.{supers_of};

    type Notes = ();

    ghost needs = { λ s. supers_of };

    ghost noted = { λ s w ts notes. Unit {0} };

    fn direct(
        &self,
        alloc: Global,
        world: &World,
        pool: &mut Pool,
        _notes: &mut (),
        key: &KeyNode,
    ) -> Result<Items<KeyNode>, Memory> {
        match key {
            KeyNode::Tree(id) => {
                let ids = bases(pool, alloc, world, *id)?;
                as_keys(alloc, pool, ids.as_slice())
            }
            KeyNode::Meth(_, _, _) => Ok(Items::new(alloc)),
        }
    }
}
