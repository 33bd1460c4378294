//! Where classes end, as found on the way up their parents.

ghost use Rattle.std.specs.Prelude.{◌≡◌, ◌≤◌, nat_eq, Some, OnOk, IfSome};
ghost use Rattle.std.specs.HashMap.{get, Updates};
ghost use Rattle.field_layout.specs.Ends as spec;
ghost use Rattle.field_layout.specs.Layouts.{ended};

use crate::answer::LayoutAnswer;
use clr_base::Memory;
use std::collections::HashMap;
use type_pool::Id;

/// Where a class ends, in bytes from the object's begin, or why it has no layout.
#[derive(Clone, Copy)]
pub enum ClassEnd {
    At(u32),
    Deep,
    Bad,
}

/// Where a class ends. It holds wherever a chain of so many members may stand.
#[derive(Clone, Copy)]
pub struct EndNote {
    /// How many members the chain of parents has, the class counted; one more than there may be where
    /// the chain is cut.
    pub members: u32,
    pub end: ClassEnd,
}

/// Where the classes among the trees of a pool end, by the trees' numbers.
pub type EndNotes = HashMap<u32, EndNote>;

/// What is noted of a class, where its chain has no more members than this.
pub(crate) fn noted_end(ends: &EndNotes, id: Id, chain: u32) -> Option<EndNote>
    ensures { IfSome result (λ n. (get nat_eq ends.now id.0 ≡ Some n) × (n.members ≤ chain)) }
{
    match ends.get(&id.0) {
        Some(note) => {
            if note.members <= chain {
                Some(*note)
            } else {
                None
            }
        }
        None => None,
    }
}

fn put_end(ends: &mut EndNotes, id: Id, note: EndNote) -> Result<(), Memory>
    ensures { OnOk result (Updates nat_eq ends.old ends.new id.0 (Some note)) }
{
    match ends.insert(id.0, note) {
        Ok(_) => Ok(()),
        Err(_) => Err(Memory),
    }
}

/// Notes where a class ends whose chain isn't cut.
pub(crate) fn keep_end(ends: &mut EndNotes, id: Id, note: EndNote, chain: u32) -> Result<(), Memory>
    ensures { OnOk result (spec.EndKept ends.old ends.new id.0 note chain) }
{
    if note.members <= chain {
        put_end(ends, id, note)
    } else {
        Ok(())
    }
}

/// Where a class ends that is laid out so.
pub(crate) fn end_of(answer: &LayoutAnswer) -> ClassEnd
    ensures { result ≡ ended answer.now }
{
    match answer {
        LayoutAnswer::Laid(layout) => ClassEnd::At(layout.end),
        LayoutAnswer::Deep => ClassEnd::Deep,
        LayoutAnswer::Bad => ClassEnd::Bad,
    }
}
