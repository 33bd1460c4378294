//! The record of a type.

ghost use Rattle.std.specs.Prelude.{◌≡◌, ◌<◌, [], true, false, length, None, Some, IfOk, OnOk, slice_get};
ghost use Rattle.type_tree.specs.declared.definition.Def.{Def as Definition};
ghost use Rattle.type_tree.specs.declared.tree.Key.TheVariants.{Tree as TreeOf};
ghost use Rattle.type_tree.specs.Canon.{canon_ty};
ghost use Rattle.type_pool.specs.Keys.{keys_below};
ghost use Rattle.type_pool.specs.Trees.{at, at_all, ids_below, Grows, Spells};
ghost use Rattle.type_record.specs.Naming.{record_in};
ghost use Rattle.type_relations.specs.Relations.{system_array};
ghost use Rattle.method_slots.specs.Chains.{IsWithin};
ghost use Rattle.method_table.specs.Named.{bare, joined, KeysGrow, NamesSlots, NamesType, Tells};
ghost use Rattle.method_table.specs.Notes.{AreTableNotes};
ghost use Rattle.method_table.specs.Tables as spec;

use crate::backs::{back_of, exact_slots};
use crate::fronts::front_of;
use crate::notes::{LONGEST, TableNotes, look_up};
use crate::numbers::number_of;
use crate::parts::{Back, Front};
use clr_base::{DefId, Memory};
use field_layout::LayoutAnswer;
use method_slots::is_interface;
use slot_chains::{chain_within, level_of};
use sqlite_items::Items;
use std::alloc::Global;
use type_pool::{Id, KeyId, KeyNode, Keys, Node, Pool, copy_node};
use type_record::{Form, Shape, SlotOf, TypeRecord};
use type_tree::{Def, World};

/// System.Array, by its number in the core library.
const SYSTEM_ARRAY: DefId = DefId(19);

/// The bytes that an array takes in front of its elements.
const ARRAY_SIZE: u32 = 16;

/// A length as a number of 32 bits. Memory where there are more.
fn count(length: usize) -> Result<u32, Memory>
    ensures { IfOk result (λ n. n ≡ length) }
{
    if length > u32::MAX as usize {
        return Err(Memory);
    }
    Ok(length as u32)
}

/// The form of a type that instantiates a definition.
fn form_of(world: &World, id: DefId, def: &Def) -> Form
    ensures { result ≡ spec.form_of world.now id def.now }
{
    if world.is_value_def(id) {
        Form::Struct
    } else if is_interface(def) {
        Form::Interface
    } else {
        Form::Class
    }
}

fn size_of(layout: &LayoutAnswer) -> u32
    ensures { result ≡ spec.size_of layout.now }
{
    match layout {
        LayoutAnswer::Laid(layout) => layout.size,
        LayoutAnswer::Deep => 0,
        LayoutAnswer::Bad => 0,
    }
}

fn offsets_of(layout: &LayoutAnswer) -> &[u32]
    ensures { result.now ≡ spec.offsets_of layout.now }
{
    match layout {
        LayoutAnswer::Laid(layout) => layout.offsets.as_slice(),
        LayoutAnswer::Deep => &[],
        LayoutAnswer::Bad => &[],
    }
}

/// The record of these parts.
pub(crate) fn record_of(
    form: Form,
    size: u32,
    canon: KeyId,
    element: Option<KeyId>,
    front: Front,
    back: Back,
) -> Result<TypeRecord<KeyId>, Memory>
    ensures { IfOk result (λ r. r ≡ joined form size canon element front back) }
{
    let shape = Shape {
        form,
        args: count(front.args.len())?,
        interfaces: count(back.interfaces.len())?,
        fields: count(front.fields.len())?,
        slots: count(back.slots.len())?,
        size,
    };
    Ok(TypeRecord {
        shape,
        parent: front.parent,
        canon,
        element,
        args: front.args,
        interfaces: back.interfaces,
        fields: front.fields,
        slots: back.slots,
        interface_slots: back.interface_slots,
    })
}

/// The parts of a type that has no arguments and no own fields.
pub(crate) fn plain_front(alloc: Global, parent: Option<KeyId>) -> Front
    ensures parent { result.parent ≡ parent }
    ensures args { result.args ≡ [] }
    ensures fields { result.fields ≡ [] }
{
    Front {
        parent,
        args: Items::new(alloc),
        fields: Items::new(alloc),
    }
}

/// The parts of a type that has no interfaces.
pub(crate) fn plain_back(alloc: Global, slots: Items<SlotOf<KeyId>>) -> Back
    ensures interfaces { result.interfaces ≡ [] }
    ensures slots { result.slots ≡ slots }
    ensures interface_slots { result.interface_slots ≡ [] }
{
    Back {
        interfaces: Items::new(alloc),
        slots,
        interface_slots: Items::new(alloc),
    }
}

/// The record of a type that instantiates a definition with these arguments.
fn inst_record(
    pool: &mut Pool,
    alloc: Global,
    world: &World,
    keys: &mut Keys,
    notes: &mut TableNotes,
    id: Id,
    def: DefId,
    args: &[Id],
    canon: KeyId,
) -> Result<TypeRecord<KeyId>, Memory>
    requires tree { id.0 < length pool.old }
    requires exists { def.0 < length world.now.defs }
    requires within { IsWithin world.now def.0 }
    requires args { ids_below (length pool.old) args.now ≡ true }
    requires keys { keys_below (length pool.old) keys.old ≡ true }
    requires notes { AreTableNotes world.now pool.old notes.old }
    requires canon { NamesType pool.old keys.old canon (canon_ty world.now (at pool.old id)) }
    ensures grows { KeysGrow pool.old pool.new keys.old keys.new }
    ensures notes { OnOk result (AreTableNotes world.now pool.new notes.new) }
    ensures tells { (d : Definition) → slice_get world.now.defs def.0 ≡ Some d → IfOk result (λ r. Tells pool.new keys.new r (record_in TreeOf (spec.inst_table world.now (at pool.old id) def (at_all pool.old args.now) d))) }
{
    let found = look_up(pool, alloc, world, notes, id, def)?;
    let definition = world.def(def);
    let offsets = offsets_of(&found.layout);
    let front = front_of(pool, alloc, world, keys, definition, args, offsets)?;
    let back = back_of(pool, alloc, world, keys, notes, &found, id, def, args)?;
    let form = form_of(world, def, definition);
    let size = size_of(&found.layout);
    record_of(form, size, canon, None, front, back)
}

/// Whether a definition is there, and its chain of parents is within the bound.
fn is_told(world: &World, def: DefId) -> bool
    ensures exists { result ≡ true → def.0 < length world.now.defs }
    ensures told { (d : Definition) → slice_get world.now.defs def.0 ≡ Some d → result ≡ true → spec.told_def world.now def.0 ≡ Some d }
    ensures none { result ≡ false → spec.told_def world.now def.0 ≡ None }
    ensures within { result ≡ true → IsWithin world.now def.0 }
{
    def.0 < world.def_count() && chain_within(world, def)
}

/// The slots of System.Array.
fn array_slots(
    pool: &mut Pool,
    alloc: Global,
    world: &World,
    keys: &mut Keys,
    notes: &mut TableNotes,
    base: Id,
) -> Result<Items<SlotOf<KeyId>>, Memory>
    requires base { Spells pool.old base system_array }
    requires keys { keys_below (length pool.old) keys.old ≡ true }
    requires notes { AreTableNotes world.now pool.old notes.old }
    ensures grows { KeysGrow pool.old pool.new keys.old keys.new }
    ensures notes { OnOk result (AreTableNotes world.now pool.new notes.new) }
    ensures named { IfOk result (λ ss. NamesSlots pool.new keys.new ss (spec.array_slots world.now)) }
{
    if !is_told(world, SYSTEM_ARRAY) {
        return Ok(Items::new(alloc));
    }
    let place = level_of(pool, alloc, world, &mut notes.slots, SYSTEM_ARRAY, LONGEST)?;
    exact_slots(
        pool,
        alloc,
        world,
        keys,
        &notes.slots,
        place,
        base,
        SYSTEM_ARRAY,
        &[],
    )
}

/// The record of an array.
fn array_record(
    pool: &mut Pool,
    alloc: Global,
    world: &World,
    keys: &mut Keys,
    notes: &mut TableNotes,
    id: Id,
    part: Id,
    canon: KeyId,
) -> Result<TypeRecord<KeyId>, Memory>
    requires part { part.0 < length pool.old }
    requires keys { keys_below (length pool.old) keys.old ≡ true }
    requires notes { AreTableNotes world.now pool.old notes.old }
    requires canon { NamesType pool.old keys.old canon (canon_ty world.now (at pool.old id)) }
    ensures grows { KeysGrow pool.old pool.new keys.old keys.new }
    ensures notes { OnOk result (AreTableNotes world.now pool.new notes.new) }
    ensures tells { IfOk result (λ r. Tells pool.new keys.new r (record_in TreeOf (spec.array_table world.now (at pool.old id) (at pool.old part)))) }
{
    let _ = id;
    let base = pool.intern(Node::Inst(SYSTEM_ARRAY, Items::new(alloc)))?;
    let slots = array_slots(pool, alloc, world, keys, notes, base)?;
    let parent = number_of(pool, keys, KeyNode::Tree(base))?;
    let element = number_of(pool, keys, KeyNode::Tree(part))?;
    let front = plain_front(alloc, Some(parent));
    let back = plain_back(alloc, slots);
    record_of(Form::Array, ARRAY_SIZE, canon, Some(element), front, back)
}

/// The record of whatever is loaded nowhere.
fn bare_record(alloc: Global, canon: KeyId) -> Result<TypeRecord<KeyId>, Memory>
    ensures { IfOk result (λ r. r ≡ bare canon) }
{
    let front = plain_front(alloc, None);
    let back = plain_back(alloc, Items::new(alloc));
    record_of(Form::Class, 0, canon, None, front, back)
}

/// The record of a type, whose canonical form has this number.
pub(crate) fn type_record(
    pool: &mut Pool,
    alloc: Global,
    world: &World,
    keys: &mut Keys,
    notes: &mut TableNotes,
    id: Id,
    canon: KeyId,
) -> Result<TypeRecord<KeyId>, Memory>
    requires tree { id.0 < length pool.old }
    requires keys { keys_below (length pool.old) keys.old ≡ true }
    requires notes { AreTableNotes world.now pool.old notes.old }
    requires canon { NamesType pool.old keys.old canon (canon_ty world.now (at pool.old id)) }
    ensures grows { KeysGrow pool.old pool.new keys.old keys.new }
    ensures notes { OnOk result (AreTableNotes world.now pool.new notes.new) }
    ensures tells { IfOk result (λ r. Tells pool.new keys.new r (record_in TreeOf (spec.type_table world.now (at pool.old id)))) }
{
    let node = copy_node(alloc, pool.node(id))?;
    match node {
        Node::Inst(def, args) => {
            if !is_told(world, def) {
                return bare_record(alloc, canon);
            }
            let args = args.as_slice();
            inst_record(pool, alloc, world, keys, notes, id, def, args, canon)
        }
        Node::Array(part) => array_record(pool, alloc, world, keys, notes, id, part, canon),
        _ => bare_record(alloc, canon),
    }
}
