//! A record out of its words.

ghost use Rattle.std.specs.Prelude.{◌≡◌, ◌≤◌, length, take, drop, IfOk};
ghost use Rattle.type_record.specs.TheOne.{IsTheOne};
ghost use Rattle.type_record.specs.Sections.{AreWords, IsRead};

use crate::front::read_front;
use crate::in_word::{InWord, read_part};
use crate::interfaces::read_interfaces;
use crate::loaded::{Record, TypeRecord};
use clr_base::Memory;
use sqlite_items::Items;
use std::alloc::Global;

/// The first n words.
pub(crate) fn first_words(words: &[u64], n: usize) -> &[u64]
    requires { n ≤ length words.now }
    ensures { result.now ≡ take n words.now }
{
    &words[..n]
}

/// The words from a place on.
pub(crate) fn words_from(words: &[u64], from: usize) -> &[u64]
    requires { from ≤ length words.now }
    ensures { result.now ≡ drop from words.now }
{
    &words[from..]
}

/// The parts in some words, one each, or None where some word is no such part's.
pub(crate) fn read_all<W: InWord>(alloc: Global, words: &[u64]) -> Result<Option<Items<W>>, Memory>
    ensures { IfOk result (λ o. IsTheOne (AreWords W.fits W.entry words.now) o) }
{
    let mut all = Items::new(alloc);
    for word in words {
        let Some(part) = read_part(*word) else {
            return Ok(None);
        };
        all.push(part)?;
    }
    Ok(Some(all))
}

/// The record whose words these are, or None where they are no record's.
pub fn read_record(alloc: Global, words: &[u64]) -> Result<Option<Record>, Memory>
    ensures { IfOk result (λ o. IsTheOne (IsRead words.now) o) }
{
    let Some(front) = read_front(words) else {
        return Ok(None);
    };
    let shape = front.shape;
    let interfaces_at = 8 + shape.args as usize;
    let fields_at = interfaces_at + shape.interfaces as usize;
    let slots_at = fields_at + shape.fields as usize;
    let methods_at = slots_at + shape.slots as usize;
    if words.len() < methods_at || words.len() - methods_at >= 1_099_511_627_776 {
        return Ok(None);
    }
    let methods = words_from(words, methods_at);
    let own = first_words(words_from(words, interfaces_at), shape.interfaces as usize);
    let Some(interfaces) = read_interfaces(alloc, own, methods)? else {
        return Ok(None);
    };
    let own = first_words(words_from(words, 8), shape.args as usize);
    let Some(args) = read_all(alloc, own)? else {
        return Ok(None);
    };
    let own = first_words(words_from(words, fields_at), shape.fields as usize);
    let Some(fields) = read_all(alloc, own)? else {
        return Ok(None);
    };
    let own = first_words(words_from(words, slots_at), shape.slots as usize);
    let Some(slots) = read_all(alloc, own)? else {
        return Ok(None);
    };
    Ok(Some(TypeRecord {
        shape: front.shape,
        parent: front.parent,
        canon: front.canon,
        element: front.element,
        args,
        interfaces: interfaces.all,
        fields,
        slots,
        interface_slots: interfaces.slots,
    }))
}
