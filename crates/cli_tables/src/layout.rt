//! The layout of the stream `#~` (ECMA-335 II.24.2.6): read once, and kept as places.
ghost use Rattle.std.specs.Prelude.{◌≡◌, ◌+◌, ◌*◌, ◌<◌, ◌≤◌, ◌^◌, ℕ, length, IfSome, true, is_some};
ghost use Rattle.std.specs.List.{list_all, range_with_len};
ghost use Rattle.cli_tables.specs.Layout as spec;
ghost use Rattle.cli_tables.specs.Places.{AreColumnPlaces, IsTablePlace, ArePlacesBelow};

use crate::schema::{Column, MOST_COLUMNS, TABLE_COUNT, columns_of};
use crate::widths::{has_bit, width_of};
use clr_base::{read_u32, read_u64};

/// Where a column begins in a row, and its width, in bytes.
#[derive(Clone, Copy)]
pub struct CellPlace {
    pub offset: u16,
    pub width: u8,
}

/// Where a table begins in the stream, how many rows it has, their width in bytes, and its columns.
#[derive(Clone, Copy)]
pub struct TablePlace {
    pub start: usize,
    pub rows: u32,
    pub row_width: u16,
    pub cells: [CellPlace; MOST_COLUMNS],
}

const NO_CELL: CellPlace = CellPlace {
    offset: 0,
    width: 0,
};

const NO_TABLE: TablePlace = TablePlace {
    start: 0,
    rows: 0,
    row_width: 0,
    cells: [NO_CELL; MOST_COLUMNS],
};

/// The places of columns, and their width together.
fn place_columns(counts: &[u32], sizes: u8, columns: &[Column]) -> ([CellPlace; MOST_COLUMNS], u16)
    requires { length columns.now ≤ 9 }
    ensures places { AreColumnPlaces counts.now sizes columns.now result.0 }
    ensures width { result.1 ≡ spec.widths counts.now sizes columns.now }
    ensures small { result.1 ≤ 36 }
{
    let mut cells = [NO_CELL; MOST_COLUMNS];
    let mut offset = 0;
    for (k, column) in columns.iter().enumerate() {
        let width = width_of(counts, sizes, *column);
        cells[k] = CellPlace { offset, width };
        offset += u16::from(width);
    }
    (cells, offset)
}

/// The bits that tell which heap indexes are wide.
#[tactic(auto, unfolding(crate::specs::Layout::heap_sizes))]
fn heap_sizes(stream: &[u8]) -> u8
    requires { 24 ≤ length stream.now }
    ensures { result ≡ spec.heap_sizes stream.now }
{
    stream[6]
}

/// The mask Valid.
#[tactic(auto, unfolding(crate::specs::Layout::valid))]
fn valid_mask(stream: &[u8]) -> u64
    requires { 24 ≤ length stream.now }
    ensures { result ≡ spec.valid stream.now }
{
    read_u64(stream, 8)
}

/// Where the rows begin.
#[tactic(auto, unfolding(crate::specs::Layout::rows_at))]
fn rows_begin(stream: &[u8]) -> usize
    requires { 24 ≤ length stream.now }
    ensures exact { result ≡ spec.rows_at stream.now }
    ensures near { result ≤ 280 }
{
    24 + 4 * present_count(valid_mask(stream))
}

/// How many tables the mask Valid has.
#[tactic(auto, using(crate::proofs::Sums::sum_below_none, crate::proofs::Sums::sum_below_more))]
fn present_count(valid: u64) -> usize
    ensures exact { result ≡ spec.present_in valid 64 }
    ensures small { result ≤ 64 }
{
    let mut count = 0;
    for t in 0..64 {
        count += usize::from(has_bit(valid, t));
    }
    count
}

/// Whether the schema has each table of the mask.
fn all_known(valid: u64) -> bool
    ensures { result ≡ list_all (spec.absent_or_known valid) (range_with_len 0 64) }
{
    (0..64).all(|t| !has_bit(valid, t) || !columns_of(t).is_empty())
}

/// The count of rows of a table, by the place of the next count.
#[tactic(auto, unfolding(crate::specs::Layout::row_count), using(crate::proofs::Sums::count_inside))]
fn count_at(stream: &[u8], valid: u64, t: u8, at: usize) -> u32
    requires mask { valid ≡ spec.valid stream.now }
    requires known { t < 45 }
    requires place { at ≡ 24 + 4 * spec.present_in valid t }
    requires inside { spec.rows_at stream.now ≤ length stream.now }
    ensures { result ≡ spec.row_count stream.now t }
{
    if has_bit(valid, t) {
        read_u32(stream, at)
    } else {
        0
    }
}

/// The counts of rows of all tables.
fn read_counts(stream: &[u8], valid: u64) -> [u32; TABLE_COUNT]
    requires mask { valid ≡ spec.valid stream.now }
    requires inside { spec.rows_at stream.now ≤ length stream.now }
    ensures { result ≡ spec.row_counts stream.now }
{
    let mut counts = [0; TABLE_COUNT];
    let mut at = 24;
    for t in 0..TABLE_COUNT {
        counts[t] = count_at(stream, valid, t as u8, at);
        at += 4 * usize::from(has_bit(valid, t as u8));
    }
    counts
}

/// The most rows that a table may have.
const MOST_ROWS: u32 = 16_777_215;

fn few_rows(counts: &[u32]) -> bool
    ensures { result ≡ list_all spec.is_few counts.now }
{
    counts.iter().all(|rows| *rows <= MOST_ROWS)
}

/// The place of one table.
fn place_table(stream: &[u8], counts: &[u32], t: u8, start: usize) -> TablePlace
    requires whole { 24 ≤ length stream.now }
    requires counts { counts.now ≡ spec.row_counts stream.now }
    requires known { t < 45 }
    requires start { start ≡ spec.start stream.now t }
    ensures place { IsTablePlace stream.now t result }
    ensures small { result.row_width ≤ 36 }
{
    let (cells, row_width) = place_columns(counts, heap_sizes(stream), columns_of(t));
    TablePlace {
        start,
        rows: counts[t as usize],
        row_width,
        cells,
    }
}

/// The places of all tables, and the end of the last one.
fn place_tables(stream: &[u8], counts: &[u32]) -> ([TablePlace; TABLE_COUNT], usize)
    requires whole { 24 ≤ length stream.now }
    requires counts { counts.now ≡ spec.row_counts stream.now }
    requires few { list_all spec.is_few counts.now ≡ true }
    ensures places { ArePlacesBelow stream.now result.0 45 }
    ensures end { result.1 ≡ spec.start stream.now 45 }
{
    let mut places = [NO_TABLE; TABLE_COUNT];
    let mut start = rows_begin(stream);
    for t in 0..TABLE_COUNT {
        let place = place_table(stream, counts, t as u8, start);
        start += place.rows as usize * place.row_width as usize;
        places[t] = place;
    }
    (places, start)
}

/// The places of the tables of a stream, or none where it isn't whole or has what the schema doesn't know.
#[tactic(auto, unfolding(crate::specs::Layout::are_tables))]
pub fn read_layout(stream: &[u8]) -> Option<[TablePlace; TABLE_COUNT]>
    ensures exact { is_some result ≡ spec.are_tables stream.now }
    ensures places { IfSome result (λ places. ArePlacesBelow stream.now places 45) }
{
    if stream.len() < 24 || heap_sizes(stream) >= 8 {
        return None;
    }
    let valid = valid_mask(stream);
    if !all_known(valid) {
        return None;
    }
    if stream.len() < rows_begin(stream) {
        return None;
    }
    let counts = read_counts(stream, valid);
    if !few_rows(&counts) {
        return None;
    }
    let (places, end) = place_tables(stream, &counts);
    if stream.len() < end {
        return None;
    }
    Some(places)
}
