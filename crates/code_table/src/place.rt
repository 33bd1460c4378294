//! A method's place in the table.

ghost use Rattle.std.specs.Prelude.{◌≡◌, ◌⊎◌, ◌↔◌, ◌^◌, ◌<◌, [], None, Some, Err, length, unwrap_or, IfOk, IfSome, IsSome, IsTrue};
ghost use Rattle.std.specs.Option.{ForSome, option_copied};
ghost use Rattle.once_cell.specs.Once.{cell_name};
ghost use Rattle.cil_code.specs.Reading.{Gives};
ghost use Rattle.cil_code.specs.Decoding.{body_of};
ghost use Rattle.code_table.specs.Lent.{lent_body, is_kept};

use crate::kept::{Kept, keep, lend};
use crate::lent::Lent;
use cil_code::CodeFault;
use clr_base::{Bytes, Memory};
use once_cell::race::{Note, OnceBox};
use std::alloc::Global;
use std::marker::Model;

/// A method's place in the table.
#[derive(Drop)]
pub(crate) struct Slot {
    /// The bytes of its body; none where it has none.
    pub(crate) bytes: Option<Bytes>,
    /// What they are decoded to, from the first call on.
    kept: OnceBox<Kept>,
    ghost short: { ForSome bytes (λ b. length b < 2 ^ 32) },
}

/// The place of a method with these bytes.
pub(crate) fn slot_of(alloc: Global, bytes: Option<&[u8]>) -> Result<Slot, Memory>
    requires { ForSome (option_copied bytes) (λ b. length b < 2 ^ 32) }
    ensures { IfOk result (λ s. s.bytes ≡ option_copied bytes.entry) }
{
    let bytes = match bytes {
        Some(bytes) => Some(Bytes::from_slice(alloc, bytes)?),
        None => None,
    };
    Ok(Slot {
        bytes,
        kept: OnceBox::new(alloc),
    })
}

/// A method's place in a table, with what was learned of it by asking: contracts see the bytes of its body, and
/// those that are known to be kept with what they are decoded to.
#[derive(Drop)]
pub struct Place<'a> {
    slot: &'a Slot,
    note: Note<Kept>,
    ghost own: { note.cell ≡ cell_name slot.now.kept },
}

impl<'a> Model for Place<'a> {
    ghost use Rattle.std.specs.Option.{option_map};
    ghost use Rattle.code_table.specs.Table.{Asked};

    ghost Value = { Asked };

    ghost view = { λ p. record { bytes = p.slot.now.bytes; kept = option_map (λ k. k.bytes) p.note.known } };
}

impl<'a> Place<'a> {
    pub(crate) fn of(slot: &'a Slot) -> Place<'a>
        ensures { result ≡ record { bytes = slot.now.bytes; kept = None } }
    {
        Place {
            slot,
            note: slot.kept.note(),
        }
    }

    /// The body of the method, which has one, or its first fault, which `decode` tells. Never waits. Where the
    /// table's own body was lent, it is so at each further call.
    pub fn body(&mut self, alloc: Global) -> Result<Lent<'a>, CodeFault>
        requires { IsSome self.old.bytes }
        ensures body { Gives lent_body result (body_of (unwrap_or self.old.bytes [])) }
        ensures bytes { self.new.bytes ≡ self.old.bytes }
        ensures asked { (result ≡ Err CodeFault.Memory) ⊎ IsSome self.new.kept }
        ensures known { IfSome self.old.kept (λ kept. self.new.kept ≡ Some kept) }
        ensures lent { IfOk result (λ lent. IsTrue (is_kept lent) ↔ (self.new.kept ≡ self.new.bytes)) }
        ensures again { self.old.kept ≡ self.old.bytes → IfOk result (λ lent. IsTrue (is_kept lent)) }
    {
        let bytes = self.slot.bytes.as_ref().unwrap().as_slice();
        let kept = self
            .slot
            .kept
            .get_or_try_init_as(|| keep(alloc, bytes), &mut self.note)?;
        lend(alloc, kept, bytes)
    }
}
