//! Which type definition owns a row of Field or MethodDef (ECMA-335 II.22.37): a definition's row has the first row of its
//! run, which ends before the next one's.
ghost use Rattle.std.specs.Prelude.{◌≡◌, ℕ, ◌+◌, ◌<◌, ◌≤◌, length, map, get_or, IfOk, if◌then◌else◌};
ghost use Rattle.cli_tables.specs.Layout.{row_count};
ghost use Rattle.cli_tables.specs.Schema.{columns};
ghost use Rattle.image_rows.specs.Cells as spec;

use crate::table_numbers::TYPE_DEF;
use cli_tables::Tables;
use clr_base::Memory;
use sqlite_items::Items;
use std::alloc::Global;

/// The row behind the last one of a definition's run.
fn run_end(tables: &Tables<'_>, column: u8, table: u8, row: u32) -> u32
    requires first { 1 ≤ row }
    requires last { row ≤ row_count tables.now.tables 0x02 }
    requires column { column < length (columns 0x02) }
    ensures { result ≡ spec.run_end tables.now column table row }
{
    if row < tables.row_count(TYPE_DEF) {
        return tables.cell(TYPE_DEF, row + 1, column);
    }
    tables.row_count(table) + 1
}

/// How many rows the run of a definition has: of Field by the column 4, of MethodDef by the column 5.
#[tactic(auto, unfolding(crate::specs::Cells::run_len))]
pub fn run_len(tables: &Tables<'_>, column: u8, table: u8, row: u32) -> u32
    requires first { 1 ≤ row }
    requires last { row ≤ row_count tables.now.tables 0x02 }
    requires column { column < length (columns 0x02) }
    ensures { result ≡ spec.run_len tables.now column table row }
{
    let first = tables.cell(TYPE_DEF, row, column);
    run_end(tables, column, table, row).saturating_sub(first)
}

/// How many rows of a table stand before the run of a definition: all of them where it begins behind them.
#[tactic(auto, unfolding(crate::specs::Cells::before_run))]
pub fn before_run(tables: &Tables<'_>, column: u8, table: u8, row: u32) -> u32
    requires first { 1 ≤ row }
    requires last { row ≤ row_count tables.now.tables 0x02 }
    requires column { column < length (columns 0x02) }
    ensures exact { result ≡ spec.before_run tables.now column table row }
    ensures few { result ≤ 16777215 }
{
    let first = tables.cell(TYPE_DEF, row, column);
    first.saturating_sub(1).min(tables.row_count(table))
}

/// How many rows of a table stand before the first run, and so in none.
#[tactic(auto, unfolding(crate::specs::Cells::loose))]
pub fn loose(tables: &Tables<'_>, column: u8, table: u8) -> u32
    requires { column < length (columns 0x02) }
    ensures { result ≡ spec.loose tables.now column table }
{
    if tables.row_count(TYPE_DEF) == 0 {
        return tables.row_count(table);
    }
    tables.cell(TYPE_DEF, 1, column).saturating_sub(1)
}

/// Sets the owner of each row from a first one to the one before an end, so far as there are such rows.
fn set_run(owners: &mut Items<u32>, first: u32, end: u32, owner: u32)
    requires { length owners.old ≤ 16777215 }
    ensures count { length owners.new ≡ length owners.old }
    ensures each { (i d : ℕ) → i < length owners.old → get_or owners.new i d ≡ (if spec.in_run first end (i + 1) then owner else get_or owners.old i d) }
{
    let start = first.max(1);
    let stop = end.min(owners.len() as u32 + 1);
    for row in start..stop {
        owners.set(row as usize - 1, owner);
    }
}

/// For each row of Field (by the column 4) or of MethodDef (by the column 5) the row of the definition that owns it, the
/// first where there are several, 0 where there is none. Takes memory for a number a row, and time in the rows of both
/// tables where the runs stand in order, as in a file that passes its checks.
pub fn owners(
    alloc: Global,
    tables: &Tables<'_>,
    column: u8,
    table: u8,
) -> Result<Items<u32>, Memory>
    requires { column < length (columns 0x02) }
    ensures { IfOk result (λ owners. owners ≡ map (spec.owner_of tables.now column table) (spec.rows_of tables.now table)) }
{
    let count = tables.row_count(table) as usize;
    let mut owners = Items::from_vec(vec![in alloc; 0; count]?);
    // From the last definition to the first: of two that have a row the first counts.
    for k in (0..tables.row_count(TYPE_DEF)).rev() {
        let first = tables.cell(TYPE_DEF, k + 1, column);
        let end = run_end(tables, column, table, k + 1);
        set_run(&mut owners, first, end, k + 1);
    }
    Ok(owners)
}
