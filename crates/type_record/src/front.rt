//! The first eight words of a record: form and size, the counts, and the level words.

ghost use Rattle.std.specs.Prelude.{◌≡◌, ◌+◌, ◌*◌, ◌<◌, ◌≤◌, length, slice_index, nat_eq, ◌&&◌};
ghost use Rattle.type_record.specs.TheOne.{IsTheOne};
ghost use Rattle.type_record.specs.Words.{FitsWord};
ghost use Rattle.type_record.specs.Records.{form_number};
ghost use Rattle.type_record.specs.Sections.{IsFront, IsFrontOf};

use crate::entry::Entry;
use crate::shape::{Form, Shape};
use clr_base::Handle;

/// What the first eight words of a record tell.
#[derive(Clone, Copy)]
pub(crate) struct Front {
    pub shape: Shape,
    pub canon: Handle,
    pub parent: Option<Handle>,
    pub element: Option<Handle>,
}

/// The form of a number, or None where no form has it.
fn form_of(number: u64) -> Option<Form>
    ensures { IsTheOne (λ f. form_number f ≡ number) result }
{
    match number {
        0 => Some(Form::Class),
        1 => Some(Form::Struct),
        2 => Some(Form::Interface),
        3 => Some(Form::Array),
        4 => Some(Form::Method),
        _ => None,
    }
}

/// The form and the size in the number of a record's first word, or None where they are no record's.
pub fn form_and_size(number: u64) -> Option<(Form, u32)>
    ensures { IsTheOne (λ p. (p.1 ≤ 1048576) × (form_number p.0 + 8 * p.1 ≡ number)) result }
{
    let form = form_of(number % 8)?;
    if number / 8 > 1_048_576 {
        return None;
    }
    Some((form, (number / 8) as u32))
}

/// How many arguments and slots the number of a record's second word tells, or None where they are no record's.
pub fn args_and_slots(number: u64) -> Option<(u32, u32)>
    ensures { IsTheOne (λ p. (p.0 ≤ 65536) × (p.1 < 16777216) × (p.0 + 131072 * p.1 ≡ number)) result }
{
    let args = number % 131_072;
    let slots = number / 131_072;
    if args > 65_536 || slots >= 16_777_216 {
        return None;
    }
    Some((args as u32, slots as u32))
}

/// A count of fewer than 16,777,216.
fn count_of(number: u64) -> Option<u32>
    ensures { IsTheOne (λ n. (n < 16777216) × (n ≡ number)) result }
{
    if number < 16_777_216 {
        Some(number as u32)
    } else {
        None
    }
}

// The level words.
fn are_levels(words: &[u64]) -> bool
    requires { 8 ≤ length words.now }
    ensures { result ≡ (nat_eq (slice_index words.now 4) 524289 && nat_eq (slice_index words.now 5) 1048577 && nat_eq (slice_index words.now 6) 1572865 && nat_eq (slice_index words.now 7) 2097153) }
{
    words[4] == 524_289 && words[5] == 1_048_577 && words[6] == 1_572_865 && words[7] == 2_097_153
}

/// What the first eight words of a record tell, or None where no record has them.
pub(crate) fn read_front(words: &[u64]) -> Option<Front>
    ensures { IsTheOne (IsFront words.now) result }
{
    if words.len() < 8 || !are_levels(words) {
        return None;
    }
    let first = Entry::read(words[0])?;
    let second = Entry::read(words[1])?;
    let third = Entry::read(words[2])?;
    let fourth = Entry::read(words[3])?;
    front_of(first, second, third, fourth)
}

// The front that four entries tell.
fn front_of(
    first: Entry<Handle>,
    second: Entry<Handle>,
    third: Entry<Handle>,
    fourth: Entry<Handle>,
) -> Option<Front>
    requires fits { FitsWord first × FitsWord second × FitsWord third × FitsWord fourth }
    ensures { IsTheOne (IsFrontOf first second third fourth) result }
{
    let (form, size) = form_and_size(first.number)?;
    let canon = first.key?;
    let (args, slots) = args_and_slots(second.number)?;
    let interfaces = count_of(third.number)?;
    let fields = count_of(fourth.number)?;
    if fourth.key.is_some() {
        return None;
    }
    Some(Front {
        shape: Shape {
            form,
            args,
            interfaces,
            fields,
            slots,
            size,
        },
        canon,
        parent: second.key,
        element: third.key,
    })
}
