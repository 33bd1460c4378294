//! The types that the rows of a file name.

use clr_base::{DefId, NameId};
use sqlite_items::Items;

/// What a TypeRef row names (ECMA-335 II.22.38): a definition, or the name of one that is missing.
#[derive(Clone, Copy)]
pub enum Target {
    Def(DefId),
    Missing(NameId),
}

/// The definitions that a file's TypeDef rows are, and what its TypeRef rows name.
#[derive(Drop)]
pub struct TypeRows {
    /// The definition in the first TypeDef row; the others follow.
    pub first_def: u32,
    /// How many TypeDef rows there are.
    pub defs: u32,
    /// What each TypeRef row names.
    pub refs: Items<Target>,
}
