//! Numbers of keys.

ghost use Rattle.std.specs.Prelude.{◌≡◌, ◌<◌, [], true, length, Some, IfOk};
ghost use Rattle.type_tree.specs.Subst.{subst_ty, subst_all};
ghost use Rattle.type_pool.specs.Keys.{key_at, key_below, keys_below};
ghost use Rattle.type_pool.specs.Trees.{at, at_all, ids_below};
ghost use Rattle.method_table.specs.Named.{key_named, KeysGrow, NamesType, NamesTypes};

use clr_base::Memory;
use sqlite_items::Items;
use std::alloc::Global;
use type_pool::{Id, KeyId, KeyNode, Keys, Pool, from_tree, subst};
use type_tree::Ty;

/// The number of a key.
pub(crate) fn number_of(pool: &Pool, keys: &mut Keys, key: KeyNode) -> Result<KeyId, Memory>
    requires within { key_below (length pool.now) key ≡ true }
    requires keys { keys_below (length pool.now) keys.old ≡ true }
    ensures grows { KeysGrow pool.now pool.now keys.old keys.new }
    ensures named { IfOk result (λ n. key_named pool.now keys.new n ≡ Some (key_at pool.now key)) }
{
    let _ = pool;
    keys.intern(key)
}

/// The numbers of types.
pub(crate) fn numbers_of(
    pool: &Pool,
    alloc: Global,
    keys: &mut Keys,
    ids: &[Id],
) -> Result<Items<KeyId>, Memory>
    requires within { ids_below (length pool.now) ids.now ≡ true }
    requires keys { keys_below (length pool.now) keys.old ≡ true }
    ensures grows { KeysGrow pool.now pool.now keys.old keys.new }
    ensures named { IfOk result (λ ns. NamesTypes pool.now keys.new ns (at_all pool.now ids.now)) }
{
    let mut done = Items::new(alloc);
    for id in ids {
        let number = number_of(pool, keys, KeyNode::Tree(*id))?;
        done.push(number)?;
    }
    Ok(done)
}

/// The number of a type with arguments put in.
pub(crate) fn exact_number(
    pool: &mut Pool,
    alloc: Global,
    keys: &mut Keys,
    id: Id,
    args: &[Id],
) -> Result<KeyId, Memory>
    requires tree { id.0 < length pool.old }
    requires args { ids_below (length pool.old) args.now ≡ true }
    requires keys { keys_below (length pool.old) keys.old ≡ true }
    ensures grows { KeysGrow pool.old pool.new keys.old keys.new }
    ensures named { IfOk result (λ n. NamesType pool.new keys.new n (subst_ty (at_all pool.old args.now) [] (at pool.old id))) }
{
    let exact = subst(pool, alloc, id, args, &[])?;
    number_of(pool, keys, KeyNode::Tree(exact))
}

/// The numbers of types with arguments put in.
pub(crate) fn exact_numbers(
    pool: &mut Pool,
    alloc: Global,
    keys: &mut Keys,
    ids: &[Id],
    args: &[Id],
) -> Result<Items<KeyId>, Memory>
    requires trees { ids_below (length pool.old) ids.now ≡ true }
    requires args { ids_below (length pool.old) args.now ≡ true }
    requires keys { keys_below (length pool.old) keys.old ≡ true }
    ensures grows { KeysGrow pool.old pool.new keys.old keys.new }
    ensures named { IfOk result (λ ns. NamesTypes pool.new keys.new ns (subst_all (at_all pool.old args.now) [] (at_all pool.old ids.now))) }
{
    let mut done = Items::new(alloc);
    for id in ids {
        let number = exact_number(pool, alloc, keys, *id, args)?;
        done.push(number)?;
    }
    Ok(done)
}

/// The number of a type as a definition names it, with arguments put in.
pub(crate) fn named_number(
    pool: &mut Pool,
    alloc: Global,
    keys: &mut Keys,
    tree: &Ty,
    args: &[Id],
) -> Result<KeyId, Memory>
    requires args { ids_below (length pool.old) args.now ≡ true }
    requires keys { keys_below (length pool.old) keys.old ≡ true }
    ensures grows { KeysGrow pool.old pool.new keys.old keys.new }
    ensures named { IfOk result (λ n. NamesType pool.new keys.new n (subst_ty (at_all pool.old args.now) [] tree.now)) }
{
    let id = from_tree(tree, pool, alloc)?;
    exact_number(pool, alloc, keys, id, args)
}
