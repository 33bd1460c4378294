//! The entries of a record, one for each of its words, in their order.

ghost use Rattle.std.specs.Prelude.{◌≡◌, ◌+◌, ◌<◌, ◌^◌, ◌++◌, ◌*◌, map, length, IfOk, OnOk};
ghost use Rattle.std.specs.List.{flat_map, All};
ghost use Rattle.type_record.specs.Records as spec;
ghost use Rattle.type_record.specs.Records.{arg_entry, slot_entry, front_entries, interface_entries, form_number, method_count};
ghost use Rattle.type_record.specs.Records.{FieldHasNumber, SlotHasNumber, ChoiceHasNumber, HasNumbers};

use crate::entry::Entry;
use crate::loaded::{FieldOf, SlotOf, TypeRecord};
use crate::shape::{Form, Shape};
use clr_base::Memory;
use sqlite_items::Items;
use std::alloc::Global;

impl Form {
    /// The number of a form, from 0.
    pub fn number(self) -> u32
        ensures { result ≡ form_number self }
    {
        match self {
            Form::Class => 0,
            Form::Struct => 1,
            Form::Interface => 2,
            Form::Array => 3,
            Form::Method => 4,
        }
    }
}

impl Shape {
    // The number of the first word.
    fn form_and_size(&self) -> u64
        ensures { result ≡ form_number self.now.form + 8 * self.now.size }
    {
        self.form.number() as u64 + 8 * self.size as u64
    }

    // The number of the second word.
    fn args_and_slots(&self) -> u64
        ensures { result ≡ self.now.args + 131072 * self.now.slots }
    {
        self.args as u64 + 131_072 * self.slots as u64
    }
}

fn entry<K>(number: u64, key: Option<K>) -> Entry<K>
    ensures { result ≡ spec.entry number key }
{
    Entry { number, key }
}

// The eight entries in front.
fn front<K: Copy>(alloc: Global, rec: &TypeRecord<K>) -> Result<Items<Entry<K>>, Memory>
    ensures { IfOk result (λ es. es ≡ front_entries rec.now.shape rec.now.canon rec.now.parent rec.now.element) }
{
    let shape = &rec.shape;
    let mut all = Items::new(alloc);
    all.push(entry(shape.form_and_size(), Some(rec.canon)))?;
    all.push(entry(shape.args_and_slots(), rec.parent))?;
    all.push(entry(shape.interfaces as u64, rec.element))?;
    all.push(entry(shape.fields as u64, None))?;
    all.push(entry(1, None))?;
    all.push(entry(2, None))?;
    all.push(entry(3, None))?;
    all.push(entry(4, None))?;
    Ok(all)
}

fn push_args<K: Copy>(all: &mut Items<Entry<K>>, args: &[K]) -> Result<(), Memory>
    ensures { OnOk result (all.new ≡ all.old ++ map arg_entry args.now) }
{
    for arg in args {
        all.push(entry(0, Some(*arg)))?;
    }
    Ok(())
}

fn push_interfaces<K: Copy>(
    all: &mut Items<Entry<K>>,
    interfaces: &[K],
    lists: &[Items<Option<SlotOf<K>>>],
) -> Result<(), Memory>
    requires lists { length lists.now ≡ length interfaces.now }
    requires methods { method_count lists.now < 2 ^ 64 }
    ensures { OnOk result (all.new ≡ all.old ++ interface_entries 0 interfaces.now lists.now) }
{
    let mut before: u64 = 0;
    for (i, interface) in interfaces.iter().enumerate() {
        all.push(entry(before, Some(*interface)))?;
        before += lists[i].len() as u64;
    }
    Ok(())
}

fn field_entry<K: Copy>(field: &FieldOf<K>) -> Entry<K>
    ensures entry { result ≡ spec.field_entry field.now }
    ensures number { FieldHasNumber field.now }
{
    match field.offset {
        None => entry(0, field.value),
        Some(offset) => entry(offset as u64 + 1, field.value),
    }
}

fn push_fields<K: Copy>(all: &mut Items<Entry<K>>, fields: &[FieldOf<K>]) -> Result<(), Memory>
    ensures pushed { OnOk result (all.new ≡ all.old ++ map spec.field_entry fields.now) }
    ensures numbers { OnOk result (All FieldHasNumber fields.now) }
{
    for field in fields {
        all.push(field_entry(field))?;
    }
    Ok(())
}

fn push_slots<K: Copy>(all: &mut Items<Entry<K>>, slots: &[SlotOf<K>]) -> Result<(), Memory>
    ensures pushed { OnOk result (all.new ≡ all.old ++ map slot_entry slots.now) }
    ensures numbers { OnOk result (All SlotHasNumber slots.now) }
{
    for slot in slots {
        all.push(entry(slot.method.0 as u64, Some(slot.owner)))?;
    }
    Ok(())
}

fn choice_entry<K: Copy>(choice: &Option<SlotOf<K>>) -> Entry<K>
    ensures entry { result ≡ spec.choice_entry choice.now }
    ensures number { ChoiceHasNumber choice.now }
{
    match choice {
        None => entry(0, None),
        Some(slot) => entry(slot.method.0 as u64 + 1, Some(slot.owner)),
    }
}

fn push_choices<K: Copy>(
    all: &mut Items<Entry<K>>,
    choices: &[Option<SlotOf<K>>],
) -> Result<(), Memory>
    ensures pushed { OnOk result (all.new ≡ all.old ++ map spec.choice_entry choices.now) }
    ensures numbers { OnOk result (All ChoiceHasNumber choices.now) }
{
    for choice in choices {
        all.push(choice_entry(choice))?;
    }
    Ok(())
}

fn push_interface_slots<K: Copy>(
    all: &mut Items<Entry<K>>,
    lists: &[Items<Option<SlotOf<K>>>],
) -> Result<(), Memory>
    ensures pushed { OnOk result (all.new ≡ all.old ++ flat_map (map spec.choice_entry) lists.now) }
    ensures numbers { OnOk result (All (All ChoiceHasNumber) lists.now) }
{
    for choices in lists {
        push_choices(all, choices.as_slice())?;
    }
    Ok(())
}

/// What the words of a record tell, one entry for each word.
#[tactic(auto, unfolding(crate::specs::Records::entries))]
pub fn entries<K: Copy>(alloc: Global, rec: &TypeRecord<K>) -> Result<Items<Entry<K>>, Memory>
    requires lists { length rec.now.interface_slots ≡ length rec.now.interfaces }
    requires methods { method_count rec.now.interface_slots < 2 ^ 64 }
    ensures entries { IfOk result (λ es. es ≡ spec.entries rec.now) }
    ensures numbers { IfOk result (λ _. HasNumbers rec.now) }
{
    let mut all = front(alloc, rec)?;
    push_args(&mut all, rec.args.as_slice())?;
    push_interfaces(
        &mut all,
        rec.interfaces.as_slice(),
        rec.interface_slots.as_slice(),
    )?;
    push_fields(&mut all, rec.fields.as_slice())?;
    push_slots(&mut all, rec.slots.as_slice())?;
    push_interface_slots(&mut all, rec.interface_slots.as_slice())?;
    Ok(all)
}
