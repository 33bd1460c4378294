//! What the rows of a file are called.

use crate::type_rows::TypeRows;
use clr_base::NameId;
use sqlite_items::Items;

/// The numbers of the names that the rows of a file have, row by row.
#[derive(Drop)]
pub struct FileNames {
    /// The full names of the definitions in the TypeDef rows.
    pub defs: Items<NameId>,
    pub types: TypeRows,
    /// The names in the Field rows.
    pub fields: Items<NameId>,
    /// The names in the MethodDef rows.
    pub methods: Items<NameId>,
}
