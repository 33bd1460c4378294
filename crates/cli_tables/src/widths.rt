//! The widths of columns (ECMA-335 II.24.2.6).
ghost use Rattle.std.specs.Prelude.{◌≡◌, ◌⊎◌, ◌≤◌, ◌-◌, ◌^◌, ◌<◌, length, slice_index};
ghost use Rattle.cli_tables.specs.Layout as spec;
ghost use Rattle.std.specs.List.{list_all};

use crate::schema::{CodedIndex, Column};

/// Bit `bit` of a number.
#[tactic(auto, unfolding(crate::specs::Layout::has_bit))]
pub fn has_bit(number: u64, bit: u8) -> bool
    requires { bit < 64 }
    ensures { result ≡ spec.has_bit number bit }
{
    (number >> bit) % 2 == 1
}

fn rows_of(counts: &[u32], table: u8) -> u32
    ensures { result ≡ slice_index counts.now table }
{
    counts.get(table as usize).copied().unwrap_or(0)
}

fn heap_width(sizes: u8, bit: u8) -> u8
    requires { bit < 64 }
    ensures { result ≡ spec.heap_width sizes bit }
{
    if has_bit(u64::from(sizes), bit) { 4 } else { 2 }
}

fn index_width(counts: &[u32], table: u8) -> u8
    ensures { result ≡ spec.row_width_of_index counts.now table }
{
    if rows_of(counts, table) < 65_536 {
        2
    } else {
        4
    }
}

/// Whether a table's rows fit into what a tag of so many bits leaves of 16.
fn fits_coded(counts: &[u32], bits: u8, table: Option<u8>) -> bool
    requires { bits ≤ 16 }
    ensures { result ≡ spec.fits_coded counts.now bits table }
{
    match table {
        None => true,
        Some(table) => rows_of(counts, table) < 1 << (16 - bits),
    }
}

fn fit_coded(counts: &[u32], bits: u8, tables: &[Option<u8>]) -> bool
    requires { bits ≤ 16 }
    ensures { result ≡ list_all (spec.fits_coded counts.now bits) tables.now }
{
    tables.iter().all(|table| fits_coded(counts, bits, *table))
}

fn coded_width(counts: &[u32], coded: CodedIndex) -> u8
    ensures { result ≡ spec.coded_width counts.now coded }
{
    if fit_coded(counts, coded.tag_bits(), coded.tables()) {
        2
    } else {
        4
    }
}

/// The width of a column in bytes, where the tables have these counts of rows and the heaps these sizes.
#[tactic(auto, unfolding(crate::specs::Layout::width))]
pub fn width_of(counts: &[u32], sizes: u8, column: Column) -> u8
    ensures exact { result ≡ spec.width counts.now sizes column }
    ensures small { result ≤ 4 }
{
    match column {
        Column::U8 => 1,
        Column::U16 => 2,
        Column::U32 => 4,
        Column::Strings => heap_width(sizes, 0),
        Column::Guid => heap_width(sizes, 1),
        Column::Blob => heap_width(sizes, 2),
        Column::Row(table) => index_width(counts, table),
        Column::Run(table) => index_width(counts, table),
        Column::Coded(coded) => coded_width(counts, coded),
    }
}
