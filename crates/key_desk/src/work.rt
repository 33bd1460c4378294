//! What a desk keeps: keys over a pool, and notes.

ghost use Rattle.std.specs.Prelude.{◌≡◌, ◌<◌, true, List, [], length, Some, slice_get, IfOk};
ghost use Rattle.type_tree.specs.declared.tree.Key.{Key as KeyOf};
ghost use Rattle.type_tree.specs.declared.tree.Ty.{Ty as Tree};
ghost use Rattle.type_tree.specs.World.{Facts};
ghost use Rattle.type_tree.specs.Canon.{canon_ty};
ghost use Rattle.type_tree.specs.Context.{key_of as key_in};
ghost use Rattle.type_pool.specs.Jobs.{AllNoted};
ghost use Rattle.type_pool.specs.Keys.{key_at, key_below, keys_below, SpellsKey};
ghost use Rattle.key_closure.specs.Bounds.{keys_at};
ghost use Rattle.key_faults.specs.Told.{IsTold};
ghost use Rattle.key_verdicts.specs.Verdicts as verdicts;
ghost use Rattle.type_judge.specs.Judging.{IsJudged};
ghost use Rattle.type_judge.specs.Notes.{AreNotes};
ghost use Rattle.key_desk.specs.Desks as spec;

use crate::found::Found;
use clr_base::{Memory, SigId};
use key_verdicts::{Judged, Local, judge_in};
use sqlite_items::Items;
use std::alloc::Global;
use std::collections::HashMap;
use type_judge::{KeyFaults, Notes};
use type_pool::{KeyId, KeyNode, Keys, Pool, copy_key_node, from_key, key_of};
use type_relations::{MemberNotes, Members};
use type_tree::World;

/// Keys over a pool, and notes on them.
#[derive(Drop)]
pub(crate) struct Work {
    pub(crate) pool: Pool,
    pub(crate) keys: Keys,
    pub(crate) notes: MemberNotes<Notes>,
}

/// No notes.
fn no_notes(alloc: Global) -> MemberNotes<Notes>
    ensures canonical { (w : Facts) (ts : List Tree) → AllNoted (canon_ty w) ts result.canonical }
    ensures notes { (w : Facts) (ts : List Tree) → AreNotes w ts result.faults }
{
    MemberNotes {
        canonical: HashMap::new(alloc),
        faults: Notes::new(alloc),
    }
}

/// No keys.
pub(crate) fn no_work(alloc: Global) -> Work
    ensures right { (w : Facts) → spec.IsRight w result }
    ensures keys { result.keys ≡ [] }
{
    Work {
        pool: Pool::new(alloc),
        keys: Keys::new(alloc),
        notes: no_notes(alloc),
    }
}

/// The number of a key, which is put in where it lacks.
fn put(world: &World, work: &mut Work, node: KeyNode) -> Result<KeyId, Memory>
    requires right { spec.IsRight world.now work.old }
    requires node { key_below (length work.old.pool) node ≡ true }
    ensures works { spec.Works world.now work.old work.new }
    ensures pool { work.new.pool ≡ work.old.pool }
    ensures named { IfOk result (λ n. spec.key_with (spec.keys_of work.new) n ≡ Some (key_at work.old.pool node)) }
{
    let _ = world;
    let number = work.keys.intern(node)?;
    Ok(number)
}

/// The key that a signature asks for, in the context of a key.
fn asked_node(
    alloc: Global,
    world: &World,
    work: &mut Work,
    context: Option<KeyId>,
    sig: SigId,
) -> Result<KeyNode, Memory>
    requires right { spec.IsRight world.now work.old }
    requires sig { sig.0 < length world.now.sigs }
    requires context { spec.IsContext (spec.keys_of work.old) context }
    ensures works { spec.Works world.now work.old work.new }
    ensures below { IfOk result (λ k. key_below (length work.new.pool) k ≡ true) }
    ensures spells { IfOk result (λ k. (s : KeyOf) → slice_get world.now.sigs sig.0 ≡ Some s
        → SpellsKey work.new.pool k (key_in (spec.context_with (spec.keys_of work.old) context) s)) }
{
    let own = from_key(world.sig(sig), &mut work.pool, alloc)?;
    match context {
        None => Ok(own),
        Some(number) => key_of(&mut work.pool, alloc, work.keys.get(number), &own),
    }
}

/// The number of the key that a signature asks for, in the context of a key.
pub(crate) fn asked(
    alloc: Global,
    world: &World,
    work: &mut Work,
    context: Option<KeyId>,
    sig: SigId,
) -> Result<KeyId, Memory>
    requires right { spec.IsRight world.now work.old }
    requires sig { sig.0 < length world.now.sigs }
    requires context { spec.IsContext (spec.keys_of work.old) context }
    ensures works { spec.Works world.now work.old work.new }
    ensures named { IfOk result (λ n. (s : KeyOf) → slice_get world.now.sigs sig.0 ≡ Some s
        → spec.key_with (spec.keys_of work.new) n ≡ Some (key_in (spec.context_with (spec.keys_of work.old) context) s)) }
{
    let node = asked_node(alloc, world, work, context, sig)?;
    put(world, work, node)
}

/// The numbers of these keys, which are put in where they lack.
fn numbers_of(
    alloc: Global,
    world: &World,
    work: &mut Work,
    nodes: &[KeyNode],
) -> Result<Items<KeyId>, Memory>
    requires right { spec.IsRight world.now work.old }
    requires within { keys_below (length work.old.pool) nodes.now ≡ true }
    ensures works { spec.Works world.now work.old work.new }
    ensures named { IfOk result (λ ns. spec.NameAll (spec.keys_of work.new) ns (keys_at work.old.pool nodes.now)) }
{
    let mut numbers = Items::new(alloc);
    for node in nodes {
        let number = put(world, work, copy_key_node(alloc, node)?)?;
        numbers.push(number)?;
    }
    Ok(numbers)
}

/// The verdict of a key. After Memory there are no notes.
fn judged(
    alloc: Global,
    world: &World,
    members: &Members<Local<KeyFaults>>,
    work: &mut Work,
    key: KeyId,
) -> Result<Judged, Memory>
    requires told { IsTold world.now members.now.faults.faults.told }
    requires right { spec.IsRight world.now work.old }
    requires key { key.0 < length work.old.keys }
    ensures works { spec.Works world.now work.old work.new }
    ensures below { IfOk result (λ judged. verdicts.judged_below (length work.new.pool) judged ≡ true) }
    ensures verdict { IfOk result (λ judged. (k : KeyOf) → spec.key_with (spec.keys_of work.old) key ≡ Some k
        → IsJudged world.now k (verdicts.verdict_at work.new.pool judged)) }
{
    let node = work.keys.get(key);
    match judge_in(alloc, members, world, &mut work.pool, &mut work.notes, node) {
        Ok(judged) => Ok(judged),
        Err(stop) => {
            work.notes = no_notes(alloc);
            Err(stop)
        }
    }
}

/// The verdict of a key, by numbers.
pub(crate) fn judged_numbers(
    alloc: Global,
    world: &World,
    members: &Members<Local<KeyFaults>>,
    work: &mut Work,
    key: KeyId,
) -> Result<Found, Memory>
    requires told { IsTold world.now members.now.faults.faults.told }
    requires right { spec.IsRight world.now work.old }
    requires key { key.0 < length work.old.keys }
    ensures works { spec.Works world.now work.old work.new }
    ensures found { IfOk result (λ f. (k : KeyOf) → spec.key_with (spec.keys_of work.old) key ≡ Some k → spec.IsFound world.now (spec.keys_of work.new) k f) }
{
    match judged(alloc, world, members, work, key)? {
        Judged::Good(nodes) => {
            let numbers = numbers_of(alloc, world, work, nodes.as_slice())?;
            Ok(Found::Good(numbers))
        }
        Judged::Refused(_, fault) => Ok(Found::Refused(fault)),
    }
}
