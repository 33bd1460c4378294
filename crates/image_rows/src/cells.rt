//! What stands in the rows of a file (ECMA-335 II.22, II.24.2).
ghost use Rattle.std.specs.Prelude.{◌≡◌, ◌<◌, ◌^◌, length};
ghost use Rattle.cli_tables.specs.Layout.{IsCell};
ghost use Rattle.image_rows.specs.Cells as spec;

use cli_tables::{CodedIndex, Tables};

/// A row of a table, from 1.
#[derive(Clone, Copy)]
pub struct RowOf {
    pub table: u8,
    pub row: u32,
}

/// The text at an index of `#Strings`; empty where there is none, which is not so in a file that passes its checks.
pub fn text_by<'a>(tables: &Tables<'a>, index: u32) -> &'a str
    ensures { result.now ≡ spec.text_by tables.now index }
{
    match tables.string(index) {
        Ok(text) => text,
        Err(_) => "",
    }
}

/// The blob at an index of `#Blob`; empty where there is none, which is not so in a file that passes its checks.
pub fn blob_by<'a>(tables: &Tables<'a>, index: u32) -> &'a [u8]
    ensures exact { result.now ≡ spec.blob_by tables.now index }
    ensures short { length result.now < 2 ^ 32 }
{
    match tables.blob(index) {
        Ok(blob) => blob,
        Err(_) => &[],
    }
}

/// The text whose index stands in a cell; empty where there is none.
#[tactic(auto, unfolding(crate::specs::Cells::text))]
pub fn text<'a>(tables: &Tables<'a>, table: u8, row: u32, column: u8) -> &'a str
    requires { IsCell tables.now.tables table row column }
    ensures { result.now ≡ spec.text tables.now table row column }
{
    text_by(tables, tables.cell(table, row, column))
}

/// The blob whose index stands in a cell; empty where there is none.
#[tactic(auto, unfolding(crate::specs::Cells::blob))]
pub fn blob<'a>(tables: &Tables<'a>, table: u8, row: u32, column: u8) -> &'a [u8]
    requires { IsCell tables.now.tables table row column }
    ensures exact { result.now ≡ spec.blob tables.now table row column }
    ensures short { length result.now < 2 ^ 32 }
{
    blob_by(tables, tables.cell(table, row, column))
}

/// The row that a coded index means (II.24.2.6): none where its row is 0 or its tag has no table.
#[tactic(auto, unfolding(crate::specs::Cells::coded))]
pub fn coded(index: CodedIndex, value: u32) -> Option<RowOf>
    ensures { result ≡ spec.coded index value }
{
    let bits = index.tag_bits();
    let tag = value % (1 << bits);
    let row = value >> bits;
    match index.tables().get(tag as usize) {
        Some(Some(table)) if row != 0 => Some(RowOf { table: *table, row }),
        _ => None,
    }
}
