//! The interfaces of a record, and what their methods are answered with.

ghost use Rattle.std.specs.Prelude.{◌≡◌, ◌+◌, ◌-◌, ◌<◌, ◌≤◌, [], length, take, slice_index, IfOk, MatchOption};
ghost use Rattle.type_record.specs.TheOne.{IsTheOne};
ghost use Rattle.type_record.specs.Words.{word_of, IsHandle};
ghost use Rattle.type_record.specs.Records.{entry};
ghost use Rattle.type_record.specs.Sections.{number_in, AreInterfaces, IsFirst, IsOwnCount};

use crate::entry::Entry;
use crate::loaded::{HandleList, InterfaceSlotList, SlotAt};
use crate::reading::{first_words, read_all, words_from};
use clr_base::{Handle, Memory};
use sqlite_items::Items;
use std::alloc::Global;

/// An interface, and what its methods are answered with.
#[derive(Drop)]
pub(crate) struct FirstInterface {
    pub interface: Handle,
    pub slots: Items<Option<SlotAt>>,
}

/// The interfaces of a record.
#[derive(Drop)]
pub(crate) struct Interfaces {
    pub all: HandleList,
    pub slots: InterfaceSlotList,
}

/// The number in a word.
fn number_of(word: u64) -> u64
    ensures { result ≡ number_in word }
{
    word.saturating_sub(1) / 524_288
}

// The interface in a word, before which the interfaces have so many methods.
fn interface_in(word: u64, before: u64) -> Option<Handle>
    ensures { IsTheOne (λ h. IsHandle h × (word_of (entry before (Some h)) ≡ word)) result }
{
    let told = Entry::read(word)?;
    if told.number == before {
        told.key
    } else {
        None
    }
}

// How many methods the first of the interfaces left has.
fn own_count(before: u64, words: &[u64], methods: usize) -> Option<usize>
    requires { 0 < length words.now }
    ensures { IsTheOne (IsOwnCount before words.now methods) result }
{
    if words.len() == 1 {
        return Some(methods);
    }
    let own = number_of(words[1]).checked_sub(before)?;
    if own <= methods as u64 {
        Some(own as usize)
    } else {
        None
    }
}

// The first of the interfaces that are left, by their words and those of their methods.
fn read_first(
    alloc: Global,
    before: u64,
    words: &[u64],
    methods: &[u64],
) -> Result<Option<FirstInterface>, Memory>
    requires { 0 < length words.now }
    ensures { IfOk result (λ o. IsTheOne (IsFirst before words.now methods.now) o) }
{
    let Some(interface) = interface_in(words[0], before) else {
        return Ok(None);
    };
    let Some(own) = own_count(before, words, methods.len()) else {
        return Ok(None);
    };
    match read_all(alloc, first_words(methods, own))? {
        None => Ok(None),
        Some(slots) => Ok(Some(FirstInterface { interface, slots })),
    }
}

/// The interfaces of a record, by their words and those of their methods; None where no record has them.
pub(crate) fn read_interfaces(
    alloc: Global,
    words: &[u64],
    methods: &[u64],
) -> Result<Option<Interfaces>, Memory>
    ensures { IfOk result (λ o. IsTheOne (λ r. AreInterfaces 0 words.now methods.now r.all r.slots) o) }
{
    let mut all = Items::new(alloc);
    let mut slots = Items::new(alloc);
    let mut before = 0;
    for i in 0..words.len() {
        let behind = words_from(methods, before);
        let Some(first) = read_first(alloc, before as u64, words_from(words, i), behind)? else {
            return Ok(None);
        };
        before += first.slots.len();
        all.push(first.interface)?;
        slots.push(first.slots)?;
    }
    if before == methods.len() {
        Ok(Some(Interfaces { all, slots }))
    } else {
        Ok(None)
    }
}
