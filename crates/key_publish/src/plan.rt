//! The closure of a key as a list of parts and members.
use clr_base::{DefId, MethId};
use sqlite_items::Items;
use type_record::Entry;

/// One part of a key. Parts name each other by their numbers in a list, in which each stands behind those that it names.
#[derive(Drop)]
pub enum Part {
    /// The definition that heads a key.
    Head { definition: DefId },
    /// One argument, put to a part.
    Argument { of: u32, argument: u32 },
    /// The array of an element.
    Array { element: u32 },
    /// A method of an owner.
    Method { method: MethId, owner: u32 },
}

/// A member of a closure: its part, and the entries of its record, over the numbers of parts.
#[derive(Drop)]
pub struct Member {
    pub part: u32,
    pub record: Items<Entry<u32>>,
}
