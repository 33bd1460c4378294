//! The checks of rows, column by column: one loop for each kind of column.
ghost use Rattle.std.specs.Prelude.{◌≡◌, ◌<◌, ℕ, length, true};
ghost use Rattle.cli_tables.specs.declared.schema.Column.TheVariants as kind;
ghost use Rattle.cli_tables.specs.Schema.{columns};
ghost use Rattle.cli_tables.specs.TextFaults.{AreTextFaults};
ghost use Rattle.image_rows.specs.Columns.{CellsPass, ValuesPass};

use crate::rows::{cell_before, check_text, is_coded, is_row, is_run, may_be_null, token};
use crate::table_numbers::TYPE_DEF;
use cli_tables::{CodedIndex, Column, Tables, TextFaults, columns_of};

/// Whether a column's indexes of texts pass.
fn texts_pass(tables: &Tables<'_>, texts: &TextFaults, table: u8, column: u8) -> bool
    requires column { column < length (columns table) }
    requires texts { AreTextFaults tables.now.strings texts.now }
    ensures { result ≡ true → ValuesPass tables.now table column kind.Strings }
{
    for row in 0..tables.row_count(table) {
        let value = tables.cell(table, row + 1, column);
        if check_text(tables, texts, value, token(table, row + 1)).is_err() {
            return false;
        }
    }
    true
}

/// Whether a column's indexes of blobs pass.
fn blobs_pass(tables: &Tables<'_>, table: u8, column: u8) -> bool
    requires { column < length (columns table) }
    ensures { result ≡ true → ValuesPass tables.now table column kind.Blob }
{
    for row in 0..tables.row_count(table) {
        let value = tables.cell(table, row + 1, column);
        if tables.blob(value).is_err() {
            return false;
        }
    }
    true
}

/// Whether a column's rows of another table pass.
fn rows_pass(tables: &Tables<'_>, table: u8, column: u8, other: u8) -> bool
    requires { column < length (columns table) }
    ensures { result ≡ true → ValuesPass tables.now table column (kind.Row other) }
{
    for row in 0..tables.row_count(table) {
        let value = tables.cell(table, row + 1, column);
        if !is_row(tables, other, value) {
            return false;
        }
    }
    true
}

/// Whether a column's first rows of runs pass. Of these columns those of TypeDef are checked.
fn runs_pass(tables: &Tables<'_>, table: u8, column: u8, other: u8) -> bool
    requires { column < length (columns table) }
    ensures { result ≡ true → ValuesPass tables.now table column (kind.Run other) }
{
    if table != TYPE_DEF {
        return true;
    }
    for row in 0..tables.row_count(table) {
        let before = cell_before(tables, table, row + 1, column);
        let value = tables.cell(table, row + 1, column);
        if !is_run(tables, other, before, value) {
            return false;
        }
    }
    true
}

/// Whether a column's coded indexes pass.
fn coded_pass(tables: &Tables<'_>, table: u8, column: u8, coded: CodedIndex) -> bool
    requires { column < length (columns table) }
    ensures { result ≡ true → ValuesPass tables.now table column (kind.Coded coded) }
{
    let may_be_null = may_be_null(table, column);
    for row in 0..tables.row_count(table) {
        let value = tables.cell(table, row + 1, column);
        if !is_coded(tables, may_be_null, coded, value) {
            return false;
        }
    }
    true
}

/// Whether all cells in a column pass.
#[tactic(auto, using(crate::proofs::ByColumn::by_kind))]
fn column_passes(tables: &Tables<'_>, texts: &TextFaults, table: u8, column: u8) -> bool
    requires column { column < length (columns table) }
    requires texts { AreTextFaults tables.now.strings texts.now }
    ensures { result ≡ true → CellsPass tables.now table column }
{
    match columns_of(table)[column as usize] {
        Column::U8 | Column::U16 | Column::U32 | Column::Guid => true,
        Column::Strings => texts_pass(tables, texts, table, column),
        Column::Blob => blobs_pass(tables, table, column),
        Column::Row(other) => rows_pass(tables, table, column, other),
        Column::Run(other) => runs_pass(tables, table, column, other),
        Column::Coded(coded) => coded_pass(tables, table, column, coded),
    }
}

/// Whether all cells of a table pass, column by column.
#[tactic(auto, using(cli_tables::proofs::SchemaFacts::short))]
pub fn columns_pass(tables: &Tables<'_>, texts: &TextFaults, table: u8) -> bool
    requires { AreTextFaults tables.now.strings texts.now }
    ensures { result ≡ true → (column : ℕ) → column < length (columns table) → CellsPass tables.now table column }
{
    let count = columns_of(table).len() as u8;
    for column in 0..count {
        if !column_passes(tables, texts, table, column) {
            return false;
        }
    }
    true
}
