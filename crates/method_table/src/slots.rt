//! Slots with their owners' numbers.

ghost use Rattle.std.specs.Prelude.{◌≡◌, map, IfOk};
ghost use Rattle.interface_maps.specs.declared.answers.Interface.{Interface as Answered};
ghost use Rattle.method_table.specs.Tables as spec;

use clr_base::Memory;
use interface_maps::Interface;
use method_slots::SlotEntry;
use sqlite_items::{Items, at};
use std::alloc::Global;
use type_pool::KeyId;
use type_record::SlotOf;

/// A method with its owner, by the owner's place on this chain of the type `own`.
fn slot_of(own: KeyId, chain: &[KeyId], entry: &SlotEntry) -> SlotOf<KeyId>
    ensures { result ≡ spec.slot_of own chain.now entry.now }
{
    let owner = match at(chain, entry.owner as usize) {
        Some(number) => *number,
        None => own,
    };
    SlotOf {
        method: entry.method,
        owner,
    }
}

/// The same of each slot.
pub(crate) fn slots_of(
    alloc: Global,
    own: KeyId,
    chain: &[KeyId],
    entries: &[SlotEntry],
) -> Result<Items<SlotOf<KeyId>>, Memory>
    ensures { IfOk result (λ ss. ss ≡ map (spec.slot_of own chain.now) entries.now) }
{
    let mut done = Items::new(alloc);
    for entry in entries {
        done.push(slot_of(own, chain, entry))?;
    }
    Ok(done)
}

/// What stands in the slot that is chosen.
fn chosen(slots: &[SlotOf<KeyId>], choice: Option<u32>) -> Option<SlotOf<KeyId>>
    ensures { result ≡ spec.chosen slots.now choice }
{
    match choice {
        Some(number) => match at(slots, number as usize) {
            Some(slot) => Some(*slot),
            None => None,
        },
        None => None,
    }
}

/// The same of each method of an interface.
fn choices_of(
    alloc: Global,
    slots: &[SlotOf<KeyId>],
    choices: &[Option<u32>],
) -> Result<Items<Option<SlotOf<KeyId>>>, Memory>
    ensures { IfOk result (λ cs. cs ≡ map (spec.chosen slots.now) choices.now) }
{
    let mut done = Items::new(alloc);
    for choice in choices {
        done.push(chosen(slots, *choice))?;
    }
    Ok(done)
}

/// The same of each interface.
pub(crate) fn interface_slots(
    alloc: Global,
    slots: &[SlotOf<KeyId>],
    found: &[Interface],
) -> Result<Items<Items<Option<SlotOf<KeyId>>>>, Memory>
    ensures { IfOk result (λ ls. ls ≡ map (λ (f : Answered). map (spec.chosen slots.now) f.choices) found.now) }
{
    let mut done = Items::new(alloc);
    for one in found {
        let choices = choices_of(alloc, slots, one.choices.as_slice())?;
        done.push(choices)?;
    }
    Ok(done)
}
