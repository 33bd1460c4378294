//! The closure of a key.
ghost use Rattle.std.specs.Prelude.{◌≡◌, ◌&&◌, nat_le, true, length, slice_get, Some, IfOk, IfSome, IfNone, OnOk};
ghost use Rattle.std.specs.List.{list_all};
ghost use Rattle.type_pool.specs.Trees.{Grows};
ghost use Rattle.type_pool.specs.Keys.{key_at, key_below, keys_below};
ghost use Rattle.key_closure.specs.Closures.{Adds, AddsAll};
ghost use Rattle.key_closure.specs.Bounds as spec;

use crate::needs::Needs;
use clr_base::Memory;
use std::alloc::Global;
use type_pool::{KeyId, KeyNode, Keys, Pool, copy_key_node, mark_of_key};
use type_tree::World;

/// The most members of a closure.
const MAX: u32 = 4096;

/// Whether a key is within the bounds of depth and weight.
fn fits(pool: &Pool, key: &KeyNode) -> bool
    requires { key_below (length pool.now) key.now ≡ true }
    ensures { result ≡ spec.fits (key_at pool.now key.now) }
{
    let mark = mark_of_key(pool, key);
    mark.depth <= 64 && mark.weight <= 65_536
}

/// Adds a key where the members lack it, and says whether it fits.
fn add_one(pool: &Pool, members: &mut Keys, key: KeyNode) -> Result<bool, Memory>
    requires within { key_below (length pool.now) key ≡ true }
    requires members { keys_below (length pool.now) members.old ≡ true }
    ensures below { OnOk result (keys_below (length pool.now) members.new ≡ true) }
    ensures adds { OnOk result (Adds (spec.keys_at pool.now members.old) (key_at pool.now key) (spec.keys_at pool.now members.new)) }
    ensures fits { IfOk result (λ fits. fits ≡ spec.fits (key_at pool.now key)) }
{
    pool.each_once();
    members.each_once();
    let fits = fits(pool, &key);
    members.intern(key)?;
    members.each_once();
    Ok(fits)
}

/// Whether there are at most 4,096, and each fits.
fn is_within(members: &Keys, fit: bool) -> bool
    ensures { result ≡ (nat_le (length members.now) 4096 && fit) }
{
    members.len() <= MAX as usize && fit
}

fn both(a: bool, b: bool) -> bool
    ensures { result ≡ (a && b) }
{
    a && b
}

/// Adds the keys that the members lack, and says whether each fits.
fn add_all(alloc: Global, pool: &Pool, members: &mut Keys, more: &[KeyNode]) -> Result<bool, Memory>
    requires within { keys_below (length pool.now) more.now ≡ true }
    requires members { keys_below (length pool.now) members.old ≡ true }
    ensures below { OnOk result (keys_below (length pool.now) members.new ≡ true) }
    ensures adds { OnOk result (AddsAll (spec.keys_at pool.now members.old) (spec.keys_at pool.now more.now) (spec.keys_at pool.now members.new)) }
    ensures fit { IfOk result (λ fit. fit ≡ list_all spec.fits (spec.keys_at pool.now more.now)) }
{
    let mut fit = true;
    for key in more {
        let key = copy_key_node(alloc, key)?;
        let one = add_one(pool, members, key)?;
        fit = both(fit, one);
    }
    Ok(fit)
}

/// The closure of a key: itself, what it needs, what that needs .., each once, in the order in which it is found.
/// None exactly where more than 4,096 keys would be listed, or one that is deeper than 64 or heavier than 65,536.
pub fn closure<N: Needs>(
    alloc: Global,
    graph: &N,
    world: &World,
    pool: &mut Pool,
    notes: &mut N::Notes,
    key: KeyNode,
) -> Result<Option<Keys>, Memory>
    requires within { key_below (length pool.old) key ≡ true }
    requires noted { N.noted graph.now world.now pool.old notes.old }
    ensures grows { Grows pool.old pool.new }
    ensures noted { OnOk result (N.noted graph.now world.now pool.new notes.new) }
    ensures within { IfOk result (λ found. IfSome found (λ members. keys_below (length pool.new) members ≡ true)) }
    ensures closure { IfOk result (λ found. IfSome found (λ members. spec.IsClosure (N.needs graph.now world.now) (key_at pool.old key) (spec.keys_at pool.new members))) }
    ensures none { IfOk result (λ found. IfNone found (spec.IsTooLarge (N.needs graph.now world.now) (key_at pool.old key))) }
{
    let mut members = Keys::new(alloc);
    if !add_one(pool, &mut members, key)? {
        return Ok(None);
    }
    for turn in 0..MAX {
        if turn as usize >= members.len() {
            return Ok(Some(members));
        }
        let taken = copy_key_node(alloc, members.get(KeyId(turn)))?;
        let more = graph.direct(alloc, world, pool, notes, &taken)?;
        let fit = add_all(alloc, pool, &mut members, more.as_slice())?;
        if !is_within(&members, fit) {
            return Ok(None);
        }
    }
    Ok(Some(members))
}
