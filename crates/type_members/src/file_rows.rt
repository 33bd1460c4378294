//! The rows of a file that tell more of its definitions and members, by what they tell of.
ghost use Rattle.std.specs.Prelude.{IfOk};
ghost use Rattle.type_members.specs.RowIndexes.{AreFileRows};

use crate::row_index::RowIndex;
use cli_tables::Tables;
use clr_base::Memory;
use image_rows::{
    CLASS_LAYOUT, FIELD_LAYOUT, GENERIC_PARAM, GENERIC_PARAM_CONSTRAINT, INTERFACE_IMPL,
    METHOD_IMPL,
};
use std::alloc::Global;

/// Indexes of a file's rows.
#[derive(Drop)]
pub struct FileRows {
    /// InterfaceImpl by the TypeDef row of the class.
    pub interfaces: RowIndex,
    /// GenericParam by its owner, a coded index TypeOrMethodDef.
    pub params: RowIndex,
    /// GenericParamConstraint by the GenericParam row.
    pub constraints: RowIndex,
    /// ClassLayout by the TypeDef row.
    pub class_layouts: RowIndex,
    /// FieldLayout by the Field row.
    pub field_layouts: RowIndex,
    /// MethodImpl by the TypeDef row of the class.
    pub method_impls: RowIndex,
}

impl FileRows {
    /// The indexes of a file. Takes memory and time in the rows of the six tables.
    #[tactic(auto, unfolding(cli_tables::specs::Schema::columns))]
    pub fn new(alloc: Global, tables: &Tables<'_>) -> Result<FileRows, Memory>
        ensures { IfOk result (AreFileRows tables.now) }
    {
        Ok(FileRows {
            interfaces: RowIndex::new(alloc, tables, INTERFACE_IMPL, 0)?,
            params: RowIndex::new(alloc, tables, GENERIC_PARAM, 2)?,
            constraints: RowIndex::new(alloc, tables, GENERIC_PARAM_CONSTRAINT, 0)?,
            class_layouts: RowIndex::new(alloc, tables, CLASS_LAYOUT, 2)?,
            field_layouts: RowIndex::new(alloc, tables, FIELD_LAYOUT, 1)?,
            method_impls: RowIndex::new(alloc, tables, METHOD_IMPL, 0)?,
        })
    }
}
