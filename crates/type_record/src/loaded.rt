//! What is told of a loaded type.

use crate::shape::Shape;
use clr_base::{Handle, MethId};
use sqlite_items::Items;

/// One of the fields that a type's definition has itself.
#[derive(Clone, Copy, PartialEq, Eq)]
pub struct FieldOf<K> {
    /// Its offset in bytes, none for a static field.
    pub offset: Option<u32>,
    /// Its exact type, where that is a value type.
    pub value: Option<K>,
}

/// What a slot answers with: a method, and the exact type that owns it.
#[derive(Clone, Copy, PartialEq, Eq)]
pub struct SlotOf<K> {
    pub method: MethId,
    pub owner: K,
}

/// What is told of a loaded type or method. `K` is what stands for the types that it names: trees, numbers of trees, or
/// handles.
#[derive(Drop)]
pub struct TypeRecord<K> {
    pub shape: Shape,
    /// The exact parent; a method's is the type that owns it.
    pub parent: Option<K>,
    /// The canonical form, which shares code with it.
    pub canon: K,
    /// The element of an array.
    pub element: Option<K>,
    pub args: Items<K>,
    /// The exact interfaces: those of the parent, then its own.
    pub interfaces: Items<K>,
    pub fields: Items<FieldOf<K>>,
    pub slots: Items<SlotOf<K>>,
    /// For each interface, in their order, what each of its methods is answered with; none where nothing was chosen.
    pub interface_slots: Items<Items<Option<SlotOf<K>>>>,
}

/// A slot of a record.
pub type SlotAt = SlotOf<Handle>;

/// A field of a record.
pub type RecordField = FieldOf<Handle>;

/// A list of handles. Contracts see it as the list.
pub type HandleList = Items<Handle>;

/// A list of fields. Contracts see it as the list.
pub type RecordFieldList = Items<RecordField>;

/// A list of slots. Contracts see it as the list.
pub type SlotList = Items<SlotAt>;

/// A list of slots for each interface. Contracts see it as the list of lists.
pub type InterfaceSlotList = Items<Items<Option<SlotAt>>>;

/// The record of a loaded type: the types that it names stand by their handles.
pub type Record = TypeRecord<Handle>;
