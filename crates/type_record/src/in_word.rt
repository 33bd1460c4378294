//! What one word of a record tells by itself.

ghost use Rattle.std.specs.Prelude.{◌≡◌};
ghost use Rattle.type_record.specs.TheOne.{IsTheOne};
ghost use Rattle.type_record.specs.Words.{word_of};

use crate::entry::Entry;
use crate::loaded::{RecordField, SlotAt};
use clr_base::{Handle, MethId};

/// A part of a record that has a word of its own: an argument, a field, a slot, or what an interface's method is
/// answered with.
pub trait InWord: Drop {
    ghost use Rattle.clr_base.specs.declared.ids.Handle.{Handle};
    ghost use Rattle.type_record.specs.declared.entry.Entry.{Entry};
    ghost use Rattle.type_record.specs.Words.{FitsWord};

    // What its word tells.
    ghost entry: { Self → Entry Handle };

    // Its number has 32 bits, and its handle is a cell's.
    ghost fits: { Self → Type 0 };

    /// The part of which a word tells this, or None where none has such a word.
    fn of_entry(told: Entry<Handle>) -> Option<Self>
        requires { FitsWord told }
        ensures { IsTheOne (λ x. fits x × (entry x ≡ told)) result };

    ghost room: { (x : Self) → fits x → FitsWord (entry x) };
}

/// The part in a word of a record, or None where no part of this kind has that word.
pub fn read_part<W: InWord>(word: u64) -> Option<W>
    ensures { IsTheOne (λ x. W.fits x × (word_of (W.entry x) ≡ word)) result }
{
    W::of_entry(Entry::read(word)?)
}

impl InWord for Handle {
    ghost use Rattle.type_record.specs.Words.{IsHandle};
    ghost use Rattle.type_record.specs.Records.{arg_entry};
    ghost use Rattle.type_record.specs.Room.{arg_room};

    ghost entry = { arg_entry };

    ghost fits = { IsHandle };

    ghost room = { arg_room };

    fn of_entry(told: Entry<Handle>) -> Option<Handle> {
        if told.number == 0 { told.key } else { None }
    }
}

impl InWord for RecordField {
    ghost use Rattle.type_record.specs.Records.{field_entry};
    ghost use Rattle.type_record.specs.Room.{FieldFits, field_room};

    ghost entry = { field_entry };

    ghost fits = { FieldFits };

    ghost room = { field_room };

    fn of_entry(told: Entry<Handle>) -> Option<RecordField> {
        let offset = match told.number.checked_sub(1) {
            None => None,
            Some(offset) => Some(u32::try_from(offset).ok()?),
        };
        Some(RecordField {
            offset,
            value: told.key,
        })
    }
}

impl InWord for SlotAt {
    ghost use Rattle.type_record.specs.Records.{slot_entry};
    ghost use Rattle.type_record.specs.Room.{SlotFits, slot_room};

    ghost entry = { slot_entry };

    ghost fits = { SlotFits };

    ghost room = { slot_room };

    fn of_entry(told: Entry<Handle>) -> Option<SlotAt> {
        let owner = told.key?;
        let method = MethId(u32::try_from(told.number).ok()?);
        Some(SlotAt { method, owner })
    }
}

impl InWord for Option<SlotAt> {
    ghost use Rattle.type_record.specs.Records.{choice_entry};
    ghost use Rattle.type_record.specs.Room.{ChoiceFits, choice_room};

    ghost entry = { choice_entry };

    ghost fits = { ChoiceFits };

    ghost room = { choice_room };

    fn of_entry(told: Entry<Handle>) -> Option<Option<SlotAt>> {
        match (told.number.checked_sub(1), told.key) {
            (None, None) => Some(None),
            (Some(number), Some(owner)) => {
                let method = MethId(u32::try_from(number).ok()?);
                Some(Some(SlotAt { method, owner }))
            }
            _ => None,
        }
    }
}
