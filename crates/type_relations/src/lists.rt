//! Lists of trees of a pool that grow at their end.
ghost use Rattle.std.specs.Prelude.{◌≡◌, ◌++◌, ◌∷◌, [], ◌<◌, true, length, IfOk, OnOk};
ghost use Rattle.type_tree.specs.Subst.{subst_ty};
ghost use Rattle.type_pool.specs.Trees.{at_all, ids_below, Grows, Spells};
ghost use Rattle.type_pool.specs.Jobs.{SpellAll};
ghost use Rattle.type_relations.specs.Relations.{put_in};

use clr_base::Memory;
use sqlite_items::Items;
use std::alloc::Global;
use type_pool::{Id, Pool, from_tree, subst};
use type_tree::Ty;

/// A tree with these arguments put in.
pub(crate) fn with_args(
    pool: &mut Pool,
    alloc: Global,
    tree: &Ty,
    args: &[Id],
) -> Result<Id, Memory>
    requires { ids_below (length pool.old) args.now ≡ true }
    ensures grows { Grows pool.old pool.new }
    ensures spells { IfOk result (λ id. Spells pool.new id (subst_ty (at_all pool.old args.now) [] tree.now)) }
{
    let whole = from_tree(tree, pool, alloc)?;
    subst(pool, alloc, whole, args, &[])
}

/// Puts a tree last, with these arguments put in.
pub(crate) fn push_put_in(
    pool: &mut Pool,
    alloc: Global,
    ids: &mut Items<Id>,
    tree: &Ty,
    args: &[Id],
) -> Result<(), Memory>
    requires args { ids_below (length pool.old) args.now ≡ true }
    requires ids { ids_below (length pool.old) ids.old ≡ true }
    ensures grows { Grows pool.old pool.new }
    ensures adds { OnOk result (SpellAll pool.new ids.new (at_all pool.old ids.old ++ subst_ty (at_all pool.old args.now) [] tree.now ∷ [])) }
{
    let put = with_args(pool, alloc, tree, args)?;
    ids.push(put)?;
    Ok(())
}

/// Puts trees last, with these arguments put in.
pub(crate) fn push_all_put_in(
    pool: &mut Pool,
    alloc: Global,
    ids: &mut Items<Id>,
    trees: &[Ty],
    args: &[Id],
) -> Result<(), Memory>
    requires args { ids_below (length pool.old) args.now ≡ true }
    requires ids { ids_below (length pool.old) ids.old ≡ true }
    ensures grows { Grows pool.old pool.new }
    ensures adds { OnOk result (SpellAll pool.new ids.new (at_all pool.old ids.old ++ put_in (at_all pool.old args.now) trees.now)) }
{
    for tree in trees {
        push_put_in(pool, alloc, ids, tree, args)?;
    }
    Ok(())
}

/// Puts trees last.
pub(crate) fn push_ids(ids: &mut Items<Id>, more: &[Id]) -> Result<(), Memory>
    ensures { OnOk result (ids.new ≡ ids.old ++ more.now) }
{
    for id in more {
        ids.push(*id)?;
    }
    Ok(())
}
