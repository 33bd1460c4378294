//! Numbers of slots.

use clr_base::Memory;
use method_slots::{Virtual, slot_numbers};
use sqlite_items::Items;
use std::alloc::Global;
use std::test::Fail;

/// A method by the number of its name and signature.
fn method(key: u32, newslot: bool) -> Option<Virtual> {
    Some(Virtual { key, newslot })
}

/// Whether methods over three inherited slots, the first and the last of which match, take these
/// numbers: the last that matches, the next free one where none does, the next one by newslot, none where
/// a method isn't virtual; and whether the slots that they open are then there.
fn as_wanted(alloc: Global) -> Result<bool, Memory> {
    let methods = [
        method(7, false),
        method(9, false),
        method(8, true),
        None,
        method(8, false),
        method(9, false),
    ];
    let mut keys = Items::from_slice(alloc, &[7, 8, 7])?;
    let given = slot_numbers(alloc, &mut keys, &methods)?;
    let wanted = [Some(2), Some(3), Some(4), None, Some(1), Some(5)];
    Ok(given.as_slice() == wanted.as_slice() && keys.as_slice() == [7, 8, 7, 9, 8, 9].as_slice())
}

#[test]
fn slots_that_methods_take(rt: HostRuntime) -> Result<(), Fail> {
    assert_eq!(rt; as_wanted(rt.alloc())?, true);
    Ok(())
}
