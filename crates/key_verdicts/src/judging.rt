//! The verdict of a key over a pool.

ghost use Rattle.std.specs.Prelude.{◌≡◌, ◌≤◌, true, length, IfOk, OnOk};
ghost use Rattle.type_tree.specs.Canon.{canon_ty};
ghost use Rattle.type_pool.specs.Trees.{Grows};
ghost use Rattle.type_pool.specs.Jobs.{AllNoted};
ghost use Rattle.type_pool.specs.Keys.{key_at, key_below, keys_below};
ghost use Rattle.key_closure.specs.Bounds.{keys_at};
ghost use Rattle.key_verdicts.specs.Verdicts as spec;

use crate::local::{Local, LocalFaults};
use clr_base::Memory;
use key_closure::closure;
use load_events::LoadFault;
use sqlite_items::Items;
use std::alloc::Global;
use type_pool::{KeyId, KeyNode, Keys, Pool, copy_key_node};
use type_relations::{MemberNotes, Members};
use type_tree::World;

/// The verdict of a key over a pool.
#[derive(Drop)]
pub enum Judged {
    /// The members of its closure, in order.
    Good(Items<KeyNode>),
    /// A member, and its fault.
    Refused(KeyNode, LoadFault),
}

/// The first of these keys that has a fault, and its fault.
fn first_refused<L: LocalFaults>(
    alloc: Global,
    faults: &L,
    world: &World,
    pool: &mut Pool,
    notes: &mut L::Notes,
    keys: &[KeyNode],
) -> Result<Option<(KeyNode, LoadFault)>, Memory>
    requires within { keys_below (length pool.old) keys.now ≡ true }
    requires right { L.right faults.now world.now pool.old notes.old }
    ensures grows { Grows pool.old pool.new }
    ensures right { OnOk result (L.right faults.now world.now pool.new notes.new) }
    ensures below { IfOk result (λ found. spec.refused_below (length pool.new) found ≡ true) }
    ensures first { IfOk result (λ found. spec.refused_at pool.new found ≡ spec.first_refused (L.local faults.now world.now) (keys_at pool.old keys.now)) }
{
    for key in keys {
        if let Some(fault) = faults.local_fault(alloc, world, pool, notes, key)? {
            return Ok(Some((copy_key_node(alloc, key)?, fault)));
        }
    }
    Ok(None)
}

/// These keys, in order.
fn listed(alloc: Global, members: &Keys) -> Result<Items<KeyNode>, Memory>
    requires { length members.now ≤ 4096 }
    ensures { IfOk result (λ keys. keys ≡ members.now) }
{
    let mut keys = Items::new(alloc);
    for number in 0..members.len() as u32 {
        keys.push(copy_key_node(alloc, members.get(KeyId(number)))?)?;
    }
    Ok(keys)
}

/// What is said of these members: the first that has a fault is refused, else they are good.
fn of_members<L: LocalFaults>(
    alloc: Global,
    faults: &L,
    world: &World,
    pool: &mut Pool,
    notes: &mut L::Notes,
    members: &Keys,
) -> Result<Judged, Memory>
    requires within { keys_below (length pool.old) members.now ≡ true }
    requires few { length members.now ≤ 4096 }
    requires right { L.right faults.now world.now pool.old notes.old }
    ensures grows { Grows pool.old pool.new }
    ensures right { OnOk result (L.right faults.now world.now pool.new notes.new) }
    ensures below { IfOk result (λ judged. spec.judged_below (length pool.new) judged ≡ true) }
    ensures said { IfOk result (λ judged. spec.IsSaid (L.local faults.now world.now) (keys_at pool.old members.now) (spec.verdict_at pool.new judged)) }
{
    let keys = listed(alloc, members)?;
    match first_refused(alloc, faults, world, pool, notes, keys.as_slice())? {
        Some((refused, fault)) => Ok(Judged::Refused(refused, fault)),
        None => Ok(Judged::Good(keys)),
    }
}

/// The key is refused for TooLarge.
fn too_large(alloc: Global, key: &KeyNode) -> Result<Judged, Memory>
    ensures { IfOk result (λ judged. judged ≡ spec.too_large key.now) }
{
    Ok(Judged::Refused(copy_key_node(alloc, key)?, LoadFault::TooLarge))
}

/// The verdict of a key: refused for TooLarge where its closure has no value; else refused for the fault of
/// the first member of the closure that has one by itself; else good, with the members. The notes serve many
/// keys of one world over one pool; after Memory they aren't to be used again.
pub fn judge_in<L: LocalFaults>(
    alloc: Global,
    members: &Members<Local<L>>,
    world: &World,
    pool: &mut Pool,
    notes: &mut MemberNotes<L::Notes>,
    key: &KeyNode,
) -> Result<Judged, Memory>
    requires within { key_below (length pool.old) key.now ≡ true }
    requires canonical { AllNoted (canon_ty world.now) pool.old notes.old.canonical }
    requires right { L.right members.now.faults.faults world.now pool.old notes.old.faults }
    ensures grows { Grows pool.old pool.new }
    ensures canonical { OnOk result (AllNoted (canon_ty world.now) pool.new notes.new.canonical) }
    ensures right { OnOk result (L.right members.now.faults.faults world.now pool.new notes.new.faults) }
    ensures below { IfOk result (λ judged. spec.judged_below (length pool.new) judged ≡ true) }
    ensures verdict { IfOk result (λ judged. spec.IsVerdict (L.local members.now.faults.faults world.now) world.now (key_at pool.old key.now) (spec.verdict_at pool.new judged)) }
{
    let root = copy_key_node(alloc, key)?;
    match closure(alloc, members, world, pool, notes, root)? {
        Some(found) => {
            let faults = &members.faults.faults;
            of_members(alloc, faults, world, pool, &mut notes.faults, &found)
        }
        None => too_large(alloc, key),
    }
}
