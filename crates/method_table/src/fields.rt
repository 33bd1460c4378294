//! The own fields of a type.

ghost use Rattle.std.specs.Prelude.{◌≡◌, ◌<◌, ◌+◌, cond, [], drop, true, length, IsTrue, IfOk};
ghost use Rattle.type_tree.specs.Fits.{def_fits};
ghost use Rattle.type_tree.specs.Subst.{subst_ty};
ghost use Rattle.type_tree.specs.Whole.{counts};
ghost use Rattle.type_pool.specs.Keys.{keys_below};
ghost use Rattle.type_pool.specs.Trees.{at, at_all, ids_below};
ghost use Rattle.field_layout.specs.Fields as layouts;
ghost use Rattle.method_table.specs.Named.{KeysGrow, NamesField, NamesFields, NamesOption};
ghost use Rattle.method_table.specs.Tables as spec;

use crate::numbers::number_of;
use clr_base::{FieldId, Memory};
use sqlite_items::{Items, at};
use std::alloc::Global;
use type_pool::{Id, KeyId, KeyNode, Keys, Pool, from_tree, subst};
use type_record::FieldOf;
use type_relations::is_value;
use type_tree::{Def, Field, Ty, World};

/// Whether a field is neither static nor literal (ECMA-335 II.23.1.5).
fn is_instance(field: &Field) -> bool
    ensures { result ≡ layouts.is_instance field.now }
{
    field.flags & 0x50 == 0
}

/// The offset of a field, where `next` of these were given to the fields before it.
fn offset_of(field: &Field, offsets: &[u32], next: u32) -> Option<u32>
    ensures { result ≡ spec.next_offset field.now (drop next offsets.now) }
{
    if !is_instance(field) {
        return None;
    }
    match at(offsets, next as usize) {
        Some(offset) => Some(*offset),
        None => None,
    }
}

/// The number of a tree, where it is a value type.
fn value_number(
    pool: &Pool,
    world: &World,
    keys: &mut Keys,
    id: Id,
) -> Result<Option<KeyId>, Memory>
    requires within { id.0 < length pool.now }
    requires keys { keys_below (length pool.now) keys.old ≡ true }
    ensures grows { KeysGrow pool.now pool.now keys.old keys.new }
    ensures named { IfOk result (λ n. NamesOption pool.now keys.new n (spec.value_type world.now (at pool.now id))) }
{
    if is_value(pool, world, id) {
        let number = number_of(pool, keys, KeyNode::Tree(id))?;
        return Ok(Some(number));
    }
    Ok(None)
}

/// The number of the type of a field with arguments put in, where it is a value type.
fn value_of(
    pool: &mut Pool,
    alloc: Global,
    world: &World,
    keys: &mut Keys,
    tree: &Ty,
    args: &[Id],
) -> Result<Option<KeyId>, Memory>
    requires args { ids_below (length pool.old) args.now ≡ true }
    requires keys { keys_below (length pool.old) keys.old ≡ true }
    ensures grows { KeysGrow pool.old pool.new keys.old keys.new }
    ensures named { IfOk result (λ n. NamesOption pool.new keys.new n (spec.value_type world.now (subst_ty (at_all pool.old args.now) [] tree.now))) }
{
    let id = from_tree(tree, pool, alloc)?;
    let exact = subst(pool, alloc, id, args, &[])?;
    value_number(pool, world, keys, exact)
}

/// A field, with its owner's arguments put in.
fn field_of(
    pool: &mut Pool,
    alloc: Global,
    world: &World,
    keys: &mut Keys,
    field: &Field,
    args: &[Id],
    offset: Option<u32>,
) -> Result<FieldOf<KeyId>, Memory>
    requires args { ids_below (length pool.old) args.now ≡ true }
    requires keys { keys_below (length pool.old) keys.old ≡ true }
    ensures grows { KeysGrow pool.old pool.new keys.old keys.new }
    ensures named { IfOk result (λ f. NamesField pool.new keys.new f (spec.field_of world.now (at_all pool.old args.now) offset field.now)) }
{
    let value = value_of(pool, alloc, world, keys, &field.ty, args)?;
    Ok(FieldOf { offset, value })
}

/// How many offsets are given to the fields up to this one.
fn given(field: &Field, next: u32) -> u32
    requires { next < 4294967295 }
    ensures { result ≡ cond (layouts.is_instance field.now) (next + 1) next }
{
    if is_instance(field) { next + 1 } else { next }
}

/// The own fields of a definition, with arguments put in: each instance field takes the next of these
/// offsets.
pub(crate) fn fields_of(
    pool: &mut Pool,
    alloc: Global,
    world: &World,
    keys: &mut Keys,
    def: &Def,
    args: &[Id],
    offsets: &[u32],
) -> Result<Items<FieldOf<KeyId>>, Memory>
    requires def { IsTrue (def_fits (counts world.now) def.now) }
    requires args { ids_below (length pool.old) args.now ≡ true }
    requires keys { keys_below (length pool.old) keys.old ≡ true }
    ensures grows { KeysGrow pool.old pool.new keys.old keys.new }
    ensures named { IfOk result (λ fs. NamesFields pool.new keys.new fs (spec.fields_of world.now (at_all pool.old args.now) offsets.now (spec.own_fields world.now def.now))) }
{
    world.whole();
    let mut done = Items::new(alloc);
    let mut next = 0;
    for number in 0..def.fields {
        let field = world.field(FieldId(def.first_field + number));
        let offset = offset_of(field, offsets, next);
        next = given(field, next);
        let one = field_of(pool, alloc, world, keys, field, args, offset)?;
        done.push(one)?;
    }
    Ok(done)
}
