//! The method tables of types and methods.

ghost use Rattle.std.specs.Prelude.{◌≡◌, ◌<◌, true, length, Some, IfOk, OnOk};
ghost use Rattle.type_tree.specs.Canon as canonical;
ghost use Rattle.type_pool.specs.Keys.{key_at, key_below, keys_below};
ghost use Rattle.type_pool.specs.Trees.{at, at_all, ids_below, Grows};
ghost use Rattle.type_tree.specs.declared.tree.Key.{Key as KeyOf};
ghost use Rattle.method_table.specs.Named.{key_named, KeysGrow, Tells};
ghost use Rattle.method_table.specs.Notes.{AreTableNotes};
ghost use Rattle.method_table.specs.Tables as spec;

use crate::notes::TableNotes;
use crate::numbers::{number_of, numbers_of};
use crate::parts::Front;
use crate::types::{plain_back, record_of, type_record};
use clr_base::Memory;
use sqlite_items::Items;
use std::alloc::Global;
use type_pool::{Id, KeyId, KeyNode, Keys, Pool, canon_key};
use type_record::{Form, TypeRecord};
use type_tree::World;

/// The number of the canonical form of a key.
fn canon_number(
    pool: &mut Pool,
    alloc: Global,
    world: &World,
    keys: &mut Keys,
    notes: &mut TableNotes,
    key: &KeyNode,
) -> Result<KeyId, Memory>
    requires within { key_below (length pool.old) key.now ≡ true }
    requires keys { keys_below (length pool.old) keys.old ≡ true }
    requires notes { AreTableNotes world.now pool.old notes.old }
    ensures grows { KeysGrow pool.old pool.new keys.old keys.new }
    ensures notes { OnOk result (AreTableNotes world.now pool.new notes.new) }
    ensures named { IfOk result (λ n. key_named pool.new keys.new n ≡ Some (canonical.canon world.now (key_at pool.old key.now))) }
{
    let canon = canon_key(pool, alloc, key, world, &mut notes.canonical)?;
    number_of(pool, keys, canon)
}

/// The record of a method with this owner and these arguments.
fn method_record(
    pool: &Pool,
    alloc: Global,
    keys: &mut Keys,
    owner: Id,
    args: &[Id],
    canon: KeyId,
) -> Result<TypeRecord<KeyId>, Memory>
    requires owner { owner.0 < length pool.now }
    requires args { ids_below (length pool.now) args.now ≡ true }
    requires keys { keys_below (length pool.now) keys.old ≡ true }
    ensures grows { KeysGrow pool.now pool.now keys.old keys.new }
    ensures tells { (k : KeyOf) → key_named pool.now keys.old canon ≡ Some k → IfOk result (λ r. Tells pool.now keys.new r (spec.method_record (at pool.now owner) (at_all pool.now args.now) k)) }
{
    let parent = number_of(pool, keys, KeyNode::Tree(owner))?;
    let args = numbers_of(pool, alloc, keys, args)?;
    let front = Front {
        parent: Some(parent),
        args,
        fields: Items::new(alloc),
    };
    let back = plain_back(alloc, Items::new(alloc));
    record_of(Form::Method, 0, canon, None, front, back)
}

/// What a loaded type or method is: its form, counts and size, its exact parent (a method's owner),
/// canonical form, element, arguments and interfaces, the offset of each own field and its exact type where
/// that is a value type, and what stands in its slots and answers the methods of its interfaces, each
/// method with its exact owner. Keys are named by their numbers, and put in where they lack. The notes
/// serve many calls: what is found of a definition is found once. Recurses as deep as the tree and the
/// types of its fields: test the key's mark first. After Memory the notes aren't to be used again.
pub fn method_table(
    pool: &mut Pool,
    alloc: Global,
    world: &World,
    keys: &mut Keys,
    notes: &mut TableNotes,
    key: &KeyNode,
) -> Result<TypeRecord<KeyId>, Memory>
    requires within { key_below (length pool.old) key.now ≡ true }
    requires keys { keys_below (length pool.old) keys.old ≡ true }
    requires notes { AreTableNotes world.now pool.old notes.old }
    ensures grows { KeysGrow pool.old pool.new keys.old keys.new }
    ensures notes { OnOk result (AreTableNotes world.now pool.new notes.new) }
    ensures tells { IfOk result (λ r. Tells pool.new keys.new r (spec.mt world.now (key_at pool.old key.now))) }
{
    let canon = canon_number(pool, alloc, world, keys, notes, key)?;
    match key {
        KeyNode::Tree(id) => type_record(pool, alloc, world, keys, notes, *id, canon),
        KeyNode::Meth(owner, _, args) => {
            method_record(pool, alloc, keys, *owner, args.as_slice(), canon)
        }
    }
}
