//! The methods and fields of a world, by their definitions.

use sqlite_items::Items;
use type_tree::{Field, Method};

/// Which fields and methods a definition owns: they stand one after the other.
#[derive(Clone, Copy, PartialEq, Eq)]
pub struct Run {
    pub first_field: u32,
    pub fields: u32,
    pub first_method: u32,
    pub methods: u32,
}

/// All methods and fields, each at its number, and the runs of each definition.
#[derive(Drop)]
pub struct MemberTable {
    pub runs: Items<Run>,
    pub methods: Items<Method>,
    /// How many generic parameters each method's signature counts (ECMA-335 II.23.2.1).
    pub generics: Items<u32>,
    pub fields: Items<Field>,
}
