//! A record in handles, out of one over what stands for the types.

ghost use Rattle.std.specs.Prelude.{◌≡◌, map, Some, IfOk, option_map};
ghost use Rattle.type_record.specs.TheOne.{IsSuch};
ghost use Rattle.type_record.specs.Naming as spec;
ghost use Rattle.type_record.specs.Naming.{IsInHandles};

use crate::loaded::{
    FieldOf, HandleList, InterfaceSlotList, Record, RecordField, RecordFieldList, SlotAt, SlotList,
    SlotOf, TypeRecord,
};
use clr_base::{Handle, Memory};
use sqlite_items::Items;
use std::alloc::Global;

/// The handles of types, by what stands for the types: trees, or numbers of trees.
pub trait Handles<K> {
    ghost use Rattle.std.specs.Prelude.{Option};
    ghost use Rattle.clr_base.specs.declared.ids.Handle.{Handle};

    ghost handle_of: { Self → K → Option Handle };

    /// The handle of a type, or None where it has none.
    fn handle(&self, key: &K) -> Option<Handle>
        ensures { result ≡ handle_of self.now key.now };
}

fn optional_in<K, H: Handles<K>>(names: &H, key: &Option<K>) -> Option<Option<Handle>>
    ensures { IsSuch (λ h. option_map (H.handle_of names.now) key.now ≡ option_map Some h) result }
{
    match key {
        None => Some(None),
        Some(key) => Some(Some(names.handle(key)?)),
    }
}

fn slot_in<K, H: Handles<K>>(names: &H, slot: &SlotOf<K>) -> Option<SlotAt>
    ensures { IsSuch (λ s. spec.slot_in (H.handle_of names.now) slot.now ≡ spec.slot_in Some s) result }
{
    let owner = names.handle(&slot.owner)?;
    Some(SlotOf {
        method: slot.method,
        owner,
    })
}

fn choice_in<K, H: Handles<K>>(names: &H, choice: &Option<SlotOf<K>>) -> Option<Option<SlotAt>>
    ensures { IsSuch (λ s. spec.choice_in (H.handle_of names.now) choice.now ≡ spec.choice_in Some s) result }
{
    match choice {
        None => Some(None),
        Some(slot) => Some(Some(slot_in(names, slot)?)),
    }
}

fn field_in<K, H: Handles<K>>(names: &H, field: &FieldOf<K>) -> Option<RecordField>
    ensures { IsSuch (λ f. spec.field_in (H.handle_of names.now) field.now ≡ spec.field_in Some f) result }
{
    let value = optional_in(names, &field.value)?;
    Some(FieldOf {
        offset: field.offset,
        value,
    })
}

fn keys_in<K, H: Handles<K>>(
    alloc: Global,
    names: &H,
    keys: &[K],
) -> Result<Option<HandleList>, Memory>
    ensures { IfOk result (λ o. IsSuch (λ hs. map (H.handle_of names.now) keys.now ≡ map Some hs) o) }
{
    let mut all = Items::new(alloc);
    for key in keys {
        let Some(handle) = names.handle(key) else {
            return Ok(None);
        };
        all.push(handle)?;
    }
    Ok(Some(all))
}

fn fields_in<K, H: Handles<K>>(
    alloc: Global,
    names: &H,
    fields: &[FieldOf<K>],
) -> Result<Option<RecordFieldList>, Memory>
    ensures { IfOk result (λ o. IsSuch (λ fs. map (spec.field_in (H.handle_of names.now)) fields.now ≡ map (spec.field_in Some) fs) o) }
{
    let mut all = Items::new(alloc);
    for field in fields {
        let Some(named) = field_in(names, field) else {
            return Ok(None);
        };
        all.push(named)?;
    }
    Ok(Some(all))
}

fn slots_in<K, H: Handles<K>>(
    alloc: Global,
    names: &H,
    slots: &[SlotOf<K>],
) -> Result<Option<SlotList>, Memory>
    ensures { IfOk result (λ o. IsSuch (λ ss. map (spec.slot_in (H.handle_of names.now)) slots.now ≡ map (spec.slot_in Some) ss) o) }
{
    let mut all = Items::new(alloc);
    for slot in slots {
        let Some(named) = slot_in(names, slot) else {
            return Ok(None);
        };
        all.push(named)?;
    }
    Ok(Some(all))
}

fn choices_in<K, H: Handles<K>>(
    alloc: Global,
    names: &H,
    choices: &[Option<SlotOf<K>>],
) -> Result<Option<Items<Option<SlotAt>>>, Memory>
    ensures { IfOk result (λ o. IsSuch (λ cs. map (spec.choice_in (H.handle_of names.now)) choices.now ≡ map (spec.choice_in Some) cs) o) }
{
    let mut all = Items::new(alloc);
    for choice in choices {
        let Some(named) = choice_in(names, choice) else {
            return Ok(None);
        };
        all.push(named)?;
    }
    Ok(Some(all))
}

fn lists_in<K, H: Handles<K>>(
    alloc: Global,
    names: &H,
    lists: &[Items<Option<SlotOf<K>>>],
) -> Result<Option<InterfaceSlotList>, Memory>
    ensures { IfOk result (λ o. IsSuch (λ ls. map (map (spec.choice_in (H.handle_of names.now))) lists.now ≡ map (map (spec.choice_in Some)) ls) o) }
{
    let mut all = Items::new(alloc);
    for choices in lists {
        let Some(named) = choices_in(alloc, names, choices.as_slice())? else {
            return Ok(None);
        };
        all.push(named)?;
    }
    Ok(Some(all))
}

/// The record with the handle of each type in the type's place, or None exactly where some type has none.
pub fn record_of<K, H: Handles<K>>(
    alloc: Global,
    names: &H,
    table: &TypeRecord<K>,
) -> Result<Option<Record>, Memory>
    ensures { IfOk result (λ o. IsSuch (IsInHandles (H.handle_of names.now) table.now) o) }
{
    let Some(canon) = names.handle(&table.canon) else {
        return Ok(None);
    };
    let Some(parent) = optional_in(names, &table.parent) else {
        return Ok(None);
    };
    let Some(element) = optional_in(names, &table.element) else {
        return Ok(None);
    };
    let Some(args) = keys_in(alloc, names, table.args.as_slice())? else {
        return Ok(None);
    };
    let Some(interfaces) = keys_in(alloc, names, table.interfaces.as_slice())? else {
        return Ok(None);
    };
    let Some(fields) = fields_in(alloc, names, table.fields.as_slice())? else {
        return Ok(None);
    };
    let Some(slots) = slots_in(alloc, names, table.slots.as_slice())? else {
        return Ok(None);
    };
    let Some(interface_slots) = lists_in(alloc, names, table.interface_slots.as_slice())? else {
        return Ok(None);
    };
    Ok(Some(TypeRecord {
        shape: table.shape,
        parent,
        canon,
        element,
        args,
        interfaces,
        fields,
        slots,
        interface_slots,
    }))
}
