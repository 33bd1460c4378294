//! Parts of the record of a type, with keys named by their numbers.

use sqlite_items::Items;
use type_pool::KeyId;
use type_record::{FieldOf, SlotOf};

/// What a type has of its own definition.
#[derive(Drop)]
pub struct Front {
    /// The exact parent.
    pub parent: Option<KeyId>,
    pub args: Items<KeyId>,
    pub fields: Items<FieldOf<KeyId>>,
}

/// What a type has along its chain of parents.
#[derive(Drop)]
pub struct Back {
    /// The exact interfaces.
    pub interfaces: Items<KeyId>,
    pub slots: Items<SlotOf<KeyId>>,
    /// For each interface, in their order, what each of its methods is answered with.
    pub interface_slots: Items<Items<Option<SlotOf<KeyId>>>>,
}
