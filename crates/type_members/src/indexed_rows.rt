//! What stands in the rows that an index finds.
ghost use Rattle.std.specs.Prelude.{◌≡◌, ◌<◌, length, map, IfOk};
ghost use Rattle.std.specs.Option.{option_map};
ghost use Rattle.cli_tables.specs.Schema.{columns};
ghost use Rattle.image_rows.specs.Cells as spec;
ghost use Rattle.type_members.specs.RowIndexes.{AreRows, Indexes};
ghost use Rattle.type_members.specs.Trees.{AreNumbered, coded_type as type_of_index};

use crate::row_index::RowIndex;
use crate::signature_trees::coded_type;
use cli_tables::Tables;
use clr_base::Memory;
use sqlite_items::Items;
use std::alloc::Global;
use type_names::TypeRows;
use type_tree::TyList;

/// The types that stand in a column of some rows, as coded indexes TypeDefOrRef (ECMA-335 II.24.2.6).
pub fn types_in(
    alloc: Global,
    types: &TypeRows,
    tables: &Tables<'_>,
    table: u8,
    column: u8,
    rows: &[u32],
) -> Result<TyList, Memory>
    requires numbered { AreNumbered types.now }
    requires column { column < length (columns table) }
    requires rows { AreRows tables.now table rows.now }
    ensures { IfOk result (λ found. found ≡ map (λ row. type_of_index types.now tables.now (spec.at tables.now table row column)) rows.now) }
{
    let mut found = Items::new(alloc);
    for row in rows {
        let index = tables.cell(table, *row, column);
        found.push(coded_type(alloc, types, tables, index)?)?;
    }
    Ok(found)
}

/// The number in a column of the first row that an index, which is by the column `by`, finds.
pub fn first_cell(
    tables: &Tables<'_>,
    index: &RowIndex,
    table: u8,
    by: u8,
    column: u8,
    value: u32,
) -> Option<u32>
    requires column { column < length (columns table) }
    requires index { Indexes tables.now table by index.now }
    ensures { result ≡ option_map (λ row. spec.at tables.now table row column) (spec.first_with tables.now table by value) }
{
    match index.first(value) {
        Some(row) => Some(tables.cell(table, row, column)),
        None => None,
    }
}
