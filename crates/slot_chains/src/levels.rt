//! What is found of the slots of a definition.

use method_slots::SlotEntry;
use sqlite_items::Items;
use type_pool::Id;

/// The slots of a definition, over a pool and a set of names and signatures.
#[derive(Drop)]
pub struct Level {
    /// The chain of its parents and itself, as trees in its own generic parameters, the root first.
    pub chain: Items<Id>,
    /// The number of the name and signature of each slot.
    pub keys: Items<u32>,
    /// What stands in each slot.
    pub entries: Items<SlotEntry>,
    /// The number that each own method takes; None for a method that takes none, and no numbers for an
    /// interface.
    pub numbers: Items<Option<u32>>,
    /// Whether an own method without newslot takes the slot of a final method.
    pub finals: bool,
}

/// What a definition has of its parent, in its own generic parameters.
#[derive(Drop)]
pub struct Handed {
    /// The parents, as trees, the root first.
    pub chain: Items<Id>,
    /// The number of the name and signature of each slot.
    pub keys: Items<u32>,
    /// What stands in each slot.
    pub entries: Items<SlotEntry>,
}
