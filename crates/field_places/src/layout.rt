//! What a layout is, and by which rules it is made.

use crate::shape::Arrangement;
use sqlite_items::Items;

/// Offsets of fields, in bytes from the object's or the value's begin.
pub type OffsetList = Items<u32>;

/// The layout of a type. All numbers are in bytes.
#[derive(Drop)]
pub struct Layout {
    /// Those of the own instance fields, in declared order.
    pub offsets: OffsetList,
    /// The end of the last field, where a derived class goes on.
    pub end: u32,
    pub size: u32,
    pub align: u32,
    /// Whether one of the own instance fields is or holds a reference.
    pub has_refs: bool,
}

/// Where the own instance fields of a type stand, and the end of the last.
#[derive(Drop)]
pub struct Places {
    pub offsets: OffsetList,
    pub end: u32,
}

/// What a definition says of its layout.
#[derive(Clone, Copy)]
pub struct Rules {
    /// Whether it is a value type.
    pub value: bool,
    /// The arrangement of its flags (II.23.1.15).
    pub arrangement: Arrangement,
    /// The packing of its ClassLayout row, 0 without one (II.22.8).
    pub packing: u32,
    /// The class size of its ClassLayout row in bytes, 0 without one.
    pub least_size: u32,
}
