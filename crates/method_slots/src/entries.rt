//! What stands in a slot.

use clr_base::MethId;

/// The method that stands in a virtual slot of a definition.
#[derive(Clone, Copy)]
pub struct SlotEntry {
    pub method: MethId,
    /// The place of the method's owner on the definition's chain of parents, which counts from 0 at the
    /// root; the definition itself stands last.
    pub owner: u32,
}
