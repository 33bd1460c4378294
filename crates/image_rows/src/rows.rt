//! The checks of the tables' rows, in order (ECMA-335 II.22).
ghost use Rattle.std.specs.Prelude.{◌≡◌, ◌≢◌, ◌+◌, ◌<◌, ◌≤◌, length};
ghost use Rattle.clr_base.specs.Checks.{first_fault};
ghost use Rattle.cli_tables.specs.declared.schema.Column.TheVariants as column_kind;
ghost use Rattle.cli_tables.specs.Layout.{IsCell, row_count};
ghost use Rattle.cli_tables.specs.Schema.{columns};
ghost use Rattle.cli_tables.specs.TextFaults.{AreTextFaults};
ghost use Rattle.image_rows.specs.Refusals.{Gives};
ghost use Rattle.image_rows.specs.Rows as spec;

use crate::columns::columns_pass;
use crate::refusal::Refusal;
use crate::row_rules::{check_generic_params, check_nested_classes};
use crate::table_numbers::{GENERIC_PARAM, NESTED_CLASS, TYPE_DEF, TYPE_REF};
use cli_tables::{CodedIndex, Column, Tables, TextFaults, columns_of};
use clr_base::{FaultKind, ImageFault, check};
use std::alloc::Global;

/// The tables whose rows are checked, in order.
const CHECKED_TABLES: [u8; 17] = [
    0x01, 0x02, 0x04, 0x06, 0x09, 0x0a, 0x0f, 0x10, 0x11, 0x19, 0x1b, 0x20, 0x23, 0x29, 0x2a, 0x2b,
    0x2c,
];

/// The token of a row (III.1.9): the table's number stands in the highest byte.
#[tactic(auto, unfolding(crate::specs::Rows::token))]
pub fn token(table: u8, row: u32) -> u64
    ensures { result ≡ spec.token table row }
{
    16_777_216 * u64::from(table) + u64::from(row)
}

/// A column that has the index of a text.
#[tactic(auto, unfolding(crate::specs::Rows::text_checks))]
pub fn check_text(
    tables: &Tables<'_>,
    texts: &TextFaults,
    index: u32,
    place: u64,
) -> Result<(), ImageFault>
    requires { AreTextFaults tables.now.strings texts.now }
    ensures { result ≡ first_fault (spec.text_checks tables.now.strings index place) }
{
    match texts.fault(index) {
        None => Ok(()),
        Some(kind) => Err(ImageFault { kind, place }),
    }
}

/// Whether a table has that row.
#[tactic(auto, unfolding(crate::specs::Rows::is_row))]
pub fn is_row(tables: &Tables<'_>, table: u8, row: u32) -> bool
    ensures { result ≡ spec.is_row tables.now table row }
{
    1 <= row && row <= tables.row_count(table)
}

/// Whether a run may begin there in a table, where the run before it begins at `before`.
#[tactic(auto, unfolding(crate::specs::Rows::is_run))]
pub fn is_run(tables: &Tables<'_>, table: u8, before: u32, first: u32) -> bool
    ensures { result ≡ spec.is_run tables.now table before first }
{
    1 <= first && first <= tables.row_count(table) + 1 && before <= first
}

/// Whether a coded index names a row, or none where it may.
#[tactic(auto, unfolding(crate::specs::Rows::is_coded))]
pub fn is_coded(tables: &Tables<'_>, may_be_null: bool, coded: CodedIndex, value: u32) -> bool
    ensures { result ≡ spec.is_coded tables.now may_be_null coded value }
{
    let bits = coded.tag_bits();
    let tag = value % (1 << bits);
    let row = value >> bits;
    match coded.tables().get(tag as usize) {
        Some(Some(table)) => (may_be_null || 1 <= row) && row <= tables.row_count(*table),
        Some(None) | None => false,
    }
}

/// Whether a column may name no row: what a type extends, and where a reference is resolved.
#[tactic(auto, unfolding(crate::specs::Rows::may_be_null))]
pub fn may_be_null(table: u8, column: u8) -> bool
    ensures { result ≡ spec.may_be_null table column }
{
    (table == TYPE_DEF && column == 3) || (table == TYPE_REF && column == 0)
}

/// The cell in the row before, 0 before the first row.
#[tactic(auto, unfolding(crate::specs::Rows::cell_before))]
pub fn cell_before(tables: &Tables<'_>, table: u8, row: u32, column: u8) -> u32
    requires { IsCell tables.now.tables table row column }
    ensures { result ≡ spec.cell_before tables.now table row column }
{
    if row == 1 {
        0
    } else {
        tables.cell(table, row - 1, column)
    }
}

/// The first row of a run. Of these columns those of TypeDef are checked.
fn check_run(
    tables: &Tables<'_>,
    table: u8,
    row: u32,
    column: u8,
    other: u8,
    value: u32,
) -> Result<(), ImageFault>
    requires { IsCell tables.now.tables table row column }
    ensures { result ≡ first_fault (spec.value_checks tables.now table row column (column_kind.Run other) value) }
{
    if table != TYPE_DEF {
        return Ok(());
    }
    let before = cell_before(tables, table, row, column);
    check(
        is_run(tables, other, before, value),
        FaultKind::BadIndex,
        token(table, row),
    )
}

/// The cell in a row, counted from 1, and a column, counted from 0.
#[tactic(auto, unfolding(crate::specs::Rows::cell_checks))]
fn check_cell(
    tables: &Tables<'_>,
    texts: &TextFaults,
    table: u8,
    row: u32,
    column: u8,
) -> Result<(), ImageFault>
    requires cell { IsCell tables.now.tables table row column }
    requires texts { AreTextFaults tables.now.strings texts.now }
    ensures { result ≡ first_fault (spec.cell_checks tables.now table row column) }
{
    let value = tables.cell(table, row, column);
    let place = token(table, row);
    match columns_of(table)[column as usize] {
        Column::U8 | Column::U16 | Column::U32 | Column::Guid => Ok(()),
        Column::Strings => check_text(tables, texts, value, place),
        Column::Blob => check(tables.blob(value).is_ok(), FaultKind::BadIndex, place),
        Column::Row(other) => check(is_row(tables, other, value), FaultKind::BadIndex, place),
        Column::Run(other) => check_run(tables, table, row, column, other, value),
        Column::Coded(coded) => {
            let names = is_coded(tables, may_be_null(table, column), coded, value);
            check(names, FaultKind::BadIndex, place)
        }
    }
}

/// The columns of a row, counted from 1.
#[tactic(auto, unfolding(crate::specs::Rows::column_checks), using(clr_base::proofs::Checks::each_none, clr_base::proofs::Checks::each_passed, clr_base::proofs::Checks::each_failed, cli_tables::proofs::SchemaFacts::short))]
pub fn check_columns(
    tables: &Tables<'_>,
    texts: &TextFaults,
    table: u8,
    row: u32,
) -> Result<(), ImageFault>
    requires first { 1 ≤ row }
    requires last { row ≤ row_count tables.now.tables table }
    requires texts { AreTextFaults tables.now.strings texts.now }
    ensures { result ≡ first_fault (spec.column_checks tables.now table row) }
{
    let count = columns_of(table).len() as u8;
    for column in 0..count {
        check_cell(tables, texts, table, row, column)?;
    }
    Ok(())
}

/// The rows of a table that has no rule for whole rows. They are gone over column by column, and row by row only where one
/// doesn't pass.
#[tactic(auto, unfolding(crate::specs::Rows::table_checks), using(clr_base::proofs::Checks::each_none, clr_base::proofs::Checks::each_passed, clr_base::proofs::Checks::each_failed))]
fn check_plain_table(tables: &Tables<'_>, texts: &TextFaults, table: u8) -> Result<(), ImageFault>
    requires texts { AreTextFaults tables.now.strings texts.now }
    requires not_nested { table ≢ 0x29 }
    requires not_generic { table ≢ 0x2a }
    ensures { result ≡ first_fault (spec.table_checks tables.now table) }
{
    if columns_pass(tables, texts, table) {
        return Ok(());
    }
    for row in 0..tables.row_count(table) {
        check_columns(tables, texts, table, row + 1)?;
    }
    Ok(())
}

/// The rows of a table.
fn check_table(
    alloc: Global,
    tables: &Tables<'_>,
    texts: &TextFaults,
    table: u8,
) -> Result<(), Refusal>
    requires { AreTextFaults tables.now.strings texts.now }
    ensures { Gives result (spec.table_checks tables.now table) }
{
    match table {
        NESTED_CLASS => check_nested_classes(alloc, tables, texts),
        GENERIC_PARAM => check_generic_params(alloc, tables, texts),
        _ => match check_plain_table(tables, texts, table) {
            Ok(()) => Ok(()),
            Err(fault) => Err(Refusal::Fault(fault)),
        },
    }
}

/// The rows of all tables that are checked. The fault is the first that they have. Takes memory for each byte of `#Strings`
/// and for a few numbers for each type and method, and time in the rows and the length of `#Strings`.
#[tactic(auto, unfolding(crate::specs::Rows::rows_checks))]
pub fn check_rows(alloc: Global, tables: &Tables<'_>) -> Result<(), Refusal>
    ensures { Gives result (spec.rows_checks tables.now) }
{
    let texts = tables.text_faults(alloc)?;
    for table in CHECKED_TABLES {
        check_table(alloc, tables, &texts, table)?;
    }
    Ok(())
}
