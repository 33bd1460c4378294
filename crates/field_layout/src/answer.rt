//! What is answered of a type and of a field.

use field_places::{Layout, Shape};

/// The layout of a type, or why it has none. Deep comes before Bad.
#[derive(Drop)]
pub enum LayoutAnswer {
    Laid(Layout),
    /// Value fields nest deeper than 64.
    Deep,
    /// A field has no offset, a reference overlaps or stands unaligned, or an end or the size passes
    /// 1,048,576 bytes.
    Bad,
}

/// What a field of some type takes.
#[derive(Clone, Copy)]
pub enum ShapeAnswer {
    Takes(Shape),
    /// Value fields nest deeper than there is room.
    Deep,
    /// The type has no layout.
    Bad,
}
