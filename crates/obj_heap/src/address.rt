//! Where things stand in a heap.

/// A reference to an object: its number, by the order of making, from 1. As a value in an object a reference
/// is this number in eight bytes, lowest first, and null is 0.
#[derive(Clone, Copy, Debug, PartialEq, Eq)]
pub struct ObjRef(pub u32);

/// A place in an object.
#[derive(Clone, Copy, Debug, PartialEq, Eq)]
pub struct Address {
    pub object: ObjRef,
    /// In bytes from the object's first byte on.
    pub offset: u32,
}

/// What the bytes of a place are.
#[derive(Clone, Copy, Debug, PartialEq, Eq)]
pub enum PlaceKind {
    /// Not all of them are inside the object.
    Outside,
    /// None is a reference's.
    Numbers,
    /// They are the eight bytes of one reference.
    Reference,
    /// Anything else: some are a reference's.
    Mixed,
}
