//! The rows of a table by the number in one of their columns.
ghost use Rattle.std.specs.Prelude.{◌≡◌, ℕ, ◌<◌, length, IfOk, OnOk};
ghost use Rattle.cli_tables.specs.Schema.{columns};
ghost use Rattle.type_members.specs.RowIndexes.{Indexes, first_of_group, group, rows_at, rows_with_one};

use cli_tables::Tables;
use clr_base::Memory;
use indexmap::IndexMap;
use sqlite_items::Items;
use std::alloc::Global;

/// The rows of one table by the number that stands in one of their columns.
#[derive(Drop)]
pub struct RowIndex {
    groups: IndexMap<u32, Items<u32>>,
}

/// Adds a row behind those that have its number.
pub(crate) fn add(
    alloc: Global,
    groups: &mut IndexMap<u32, Items<u32>>,
    value: u32,
    row: u32,
) -> Result<(), Memory>
    ensures { OnOk result ((v : ℕ) → rows_at groups.new v ≡ rows_with_one groups.old value row v) }
{
    if let Some(rows) = groups.get_mut(&value) {
        rows.push(row)?;
        return Ok(());
    }
    let mut rows = Items::new(alloc);
    rows.push(row)?;
    groups.insert(value, rows)?;
    Ok(())
}

impl RowIndex {
    /// The rows of a table by a column, in one pass. Takes memory for a number a row, and time in the rows.
    pub fn new(
        alloc: Global,
        tables: &Tables<'_>,
        table: u8,
        column: u8,
    ) -> Result<RowIndex, Memory>
        requires { column < length (columns table) }
        ensures { IfOk result (Indexes tables.now table column) }
    {
        let mut groups = IndexMap::new(alloc);
        for row in 0..tables.row_count(table) {
            let value = tables.cell(table, row + 1, column);
            add(alloc, &mut groups, value, row + 1)?;
        }
        Ok(RowIndex { groups })
    }

    /// The rows that have a number in the column, in order. Takes constant time.
    pub fn rows(&self, value: u32) -> &[u32]
        ensures { result.now ≡ group self.now value }
    {
        match self.groups.get(&value) {
            Some(rows) => rows.as_slice(),
            None => &[],
        }
    }

    /// The first of them.
    pub fn first(&self, value: u32) -> Option<u32>
        ensures { result ≡ first_of_group self.now value }
    {
        self.rows(value).first().copied()
    }
}
