//! The exact parent and the exact declared interfaces of a type.
ghost use Rattle.std.specs.Prelude.{◌≡◌, ◌++◌, ◌∷◌, [], ◌<◌, true, length, Some, IfOk, OnOk};
ghost use Rattle.std.specs.Option.{option_to_list};
ghost use Rattle.type_pool.specs.Trees.{at, at_all, tree_of, parts_below, ids_below, Grows};
ghost use Rattle.type_pool.specs.Jobs.{SpellAll};
ghost use Rattle.type_relations.specs.Relations as spec;

use crate::heads::{Head, head_of};
use crate::lists::{push_all_put_in, push_put_in};
use clr_base::{DefId, Memory};
use sqlite_items::Items;
use std::alloc::Global;
use type_pool::{Id, Node, Pool};
use type_tree::{Def, Ty, World};

/// The number of System.Array among the definitions of the core library.
const SYSTEM_ARRAY: u32 = 19;

fn push_parent(
    pool: &mut Pool,
    alloc: Global,
    ids: &mut Items<Id>,
    parent: &Option<Ty>,
    args: &[Id],
) -> Result<(), Memory>
    requires args { ids_below (length pool.old) args.now ≡ true }
    requires ids { ids_below (length pool.old) ids.old ≡ true }
    ensures grows { Grows pool.old pool.new }
    ensures adds { OnOk result (SpellAll pool.new ids.new (at_all pool.old ids.old ++ spec.put_in (at_all pool.old args.now) (option_to_list parent.now))) }
{
    match parent {
        Some(tree) => push_put_in(pool, alloc, ids, tree, args),
        None => Ok(()),
    }
}

/// The exact parent and interfaces of an instantiation.
fn of_def(pool: &mut Pool, alloc: Global, def: &Def, args: &[Id]) -> Result<Items<Id>, Memory>
    requires { ids_below (length pool.old) args.now ≡ true }
    ensures grows { Grows pool.old pool.new }
    ensures spells { IfOk result (λ ids. SpellAll pool.new ids (spec.bases_of (at_all pool.old args.now) (Some def.now))) }
{
    let mut ids = Items::new(alloc);
    push_parent(pool, alloc, &mut ids, &def.parent, args)?;
    push_all_put_in(pool, alloc, &mut ids, def.interfaces.as_slice(), args)?;
    Ok(ids)
}

/// System.Array alone.
fn of_array(pool: &mut Pool, alloc: Global) -> Result<Items<Id>, Memory>
    ensures grows { Grows pool.old pool.new }
    ensures spells { IfOk result (λ ids. SpellAll pool.new ids (spec.system_array ∷ [])) }
{
    let id = pool.intern(Node::Inst(DefId(SYSTEM_ARRAY), Items::new(alloc)))?;
    let mut ids = Items::new(alloc);
    ids.push(id)?;
    Ok(ids)
}

/// The exact parent and then the exact declared interfaces of a type, in row order; of an array System.Array, and none of
/// any other tree (ECMA-335 I.8.9.9, II.22.23, II.22.37).
pub fn bases(pool: &mut Pool, alloc: Global, world: &World, id: Id) -> Result<Items<Id>, Memory>
    requires { id.0 < length pool.old }
    ensures grows { Grows pool.old pool.new }
    ensures spells { IfOk result (λ ids. SpellAll pool.new ids (spec.bases world.now (at pool.old id))) }
{
    match head_of(alloc, world, pool, id)? {
        Head::Def(def, args) => of_def(pool, alloc, world.def(def), args.as_slice()),
        Head::Array(_) => of_array(pool, alloc),
        Head::Other => Ok(Items::new(alloc)),
    }
}
