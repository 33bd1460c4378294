//! A type and its supers, over a pool.
ghost use Rattle.std.specs.Prelude.{◌≡◌, ◌<◌, ◌∷◌, [], true, length, IfOk};
ghost use Rattle.type_tree.specs.declared.tree.Key.TheVariants.{Tree as TreeOf};
ghost use Rattle.type_pool.specs.Trees.{at, Grows};
ghost use Rattle.type_pool.specs.Keys.{keys_below};
ghost use Rattle.key_closure.specs.Bounds.{keys_at};
ghost use Rattle.type_subs.specs.Listing.{has};
ghost use Rattle.type_subs.specs.Supers as spec;

use crate::laws::supers_by_closure;
use clr_base::Memory;
use key_closure::closure;
use std::alloc::Global;
use type_pool::{Id, KeyNode, Keys, Pool};
use type_relations::Supers;
use type_tree::World;

/// A tree as the only key.
fn alone(alloc: Global, id: Id) -> Result<Keys, Memory>
    ensures { IfOk result (λ keys. keys ≡ KeyNode.Tree id ∷ []) }
{
    let mut keys = Keys::new(alloc);
    keys.intern(KeyNode::Tree(id))?;
    Ok(keys)
}

/// A type and its supers; the type alone where these pass the bounds of closures.
pub(crate) fn with_supers(
    alloc: Global,
    world: &World,
    pool: &mut Pool,
    id: Id,
) -> Result<Keys, Memory>
    requires { id.0 < length pool.old }
    ensures grows { Grows pool.old pool.new }
    ensures within { IfOk result (λ keys. keys_below (length pool.new) keys ≡ true) }
    ensures are { IfOk result (λ keys. keys_at pool.new keys ≡ spec.with_supers world.now (at pool.old id)) }
{
    supers_by_closure();
    match closure(alloc, &Supers, world, pool, &mut (), KeyNode::Tree(id))? {
        Some(members) => Ok(members),
        None => alone(alloc, id),
    }
}

/// Whether a tree is among keys, which stay as they are where it is.
pub(crate) fn is_listed(pool: &Pool, keys: &mut Keys, id: Id) -> Result<bool, Memory>
    requires within { id.0 < length pool.now }
    requires keys { keys_below (length pool.now) keys.old ≡ true }
    ensures is { IfOk result (λ found. found ≡ has (keys_at pool.now keys.old) (TreeOf (at pool.now id))) }
    ensures stay { IfOk result (λ found. found ≡ true → keys.new ≡ keys.old) }
{
    pool.each_once();
    let before = keys.len();
    keys.intern(KeyNode::Tree(id))?;
    keys.each_once();
    Ok(keys.len() == before)
}

/// Whether the second type is the first or one of its supers.
pub(crate) fn extends(
    alloc: Global,
    world: &World,
    pool: &mut Pool,
    id: Id,
    other: Id,
) -> Result<bool, Memory>
    requires first { id.0 < length pool.old }
    requires second { other.0 < length pool.old }
    ensures grows { Grows pool.old pool.new }
    ensures is { IfOk result (λ found. found ≡ spec.extends world.now (at pool.old id) (at pool.old other)) }
{
    let mut keys = with_supers(alloc, world, pool, id)?;
    is_listed(pool, &mut keys, other)
}
