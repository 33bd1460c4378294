//! What is worked out of a draft once, before any byte is written: counts of rows, widths of indexes, lengths.
ghost use Rattle.std.specs.Prelude.{◌≡◌, ◌+◌, ◌*◌, ◌<◌, ◌≤◌, ◌^◌, IfSome, IfNone, is_some, length, nat_lt, map, get_or, true};
ghost use Rattle.cli_tables.specs.Layout.{width, widths};
ghost use Rattle.cli_tables.specs.Schema.{columns};
ghost use Rattle.image_write.specs.Drafts as spec;
ghost use Rattle.image_write.specs.Layouts.{IsLayout, HasFewRows, HasManyRows, is_short};
ghost use Rattle.image_write.specs.Lengths as lengths;

use crate::draft::Draft;
use crate::pieces::rounded;
use cli_tables::{TABLE_COUNT, columns_of, width_of};

/// An image has fewer bytes than this.
const LIMIT: usize = 1 << 31;

/// A heap of so many bytes has wide indexes (ECMA-335 II.24.2.6).
const LONG_HEAP: usize = 65_536;

/// What is worked out once.
#[derive(Clone, Copy)]
pub(crate) struct Layout {
    /// How many rows each table has.
    pub counts: [u32; TABLE_COUNT],
    /// HeapSizes.
    pub heap_bits: u8,
    /// The length of `#~` before it is padded.
    pub tables_len: usize,
    pub metadata_len: usize,
}

/// The cells of a table.
#[tactic(auto, unfolding(crate::specs::Drafts::cells))]
pub(crate) fn cells_of(draft: &Draft, table: u8) -> &[u32]
    ensures { result.now ≡ spec.cells draft.now table }
{
    match draft.tables.as_slice().get(table as usize) {
        Some(cells) => cells.as_slice(),
        None => &[],
    }
}

/// How many rows a table has.
#[tactic(auto, unfolding(crate::specs::Drafts::rows))]
pub(crate) fn row_count(draft: &Draft, table: u8) -> usize
    ensures { result ≡ spec.rows draft.now table }
{
    let columns = columns_of(table).len();
    if columns == 0 {
        0
    } else {
        cells_of(draft, table).len() / columns
    }
}

/// The number in a cell. Rows and columns count from 0.
#[tactic(auto, unfolding(crate::specs::Drafts::cell, crate::specs::Drafts::rows))]
pub(crate) fn cell_of(draft: &Draft, table: u8, row: usize, column: usize) -> u32
    requires row { row < spec.rows draft.now table }
    requires column { column < spec.column_count table }
    ensures { result ≡ spec.cell draft.now table row column }
{
    cells_of(draft, table)[row * columns_of(table).len() + column]
}

/// The counts of rows, where each is below the limit of an image.
#[tactic(auto, unfolding(crate::specs::Drafts::counts))]
fn counts_of(draft: &Draft) -> Option<[u32; TABLE_COUNT]>
    ensures counts { IfSome result (λ counts. counts ≡ spec.counts draft.now) }
    ensures few { IfSome result (λ _. HasFewRows draft.now) }
    ensures none { IfNone result (HasManyRows draft.now) }
{
    let mut counts = [0; TABLE_COUNT];
    for t in 0..TABLE_COUNT {
        let rows = row_count(draft, t as u8);
        if rows >= LIMIT {
            return None;
        }
        counts[t] = rows as u32;
    }
    Some(counts)
}

#[tactic(auto, unfolding(cli_tables::specs::Layout::has_bit))]
fn is_wide(bits: u8, bit: u8, heap: &[u8]) -> bool
    requires { bit < 8 }
    ensures { result ≡ spec.is_wide bits bit heap.now }
{
    (bits >> bit) % 2 == 1 || heap.len() >= LONG_HEAP
}

/// HeapSizes: the bits that the draft asks for, and those of long heaps.
#[tactic(auto, unfolding(crate::specs::Drafts::heap_bits))]
fn heap_bits(draft: &Draft) -> u8
    ensures { result ≡ spec.heap_bits draft.now }
{
    let strings = is_wide(draft.heap_sizes, 0, draft.strings.as_slice());
    let guids = is_wide(draft.heap_sizes, 1, draft.guids.as_slice());
    let blobs = is_wide(draft.heap_sizes, 2, draft.blobs.as_slice());
    u8::from(strings) + 2 * u8::from(guids) + 4 * u8::from(blobs)
}

/// The width of a row in bytes.
fn row_len(counts: &[u32], heap_bits: u8, table: u8) -> usize
    ensures exact { result ≡ widths counts.now heap_bits (columns table) }
    ensures small { result ≤ 36 }
{
    let columns = columns_of(table);
    let mut len = 0;
    for column in columns {
        len += width_of(counts, heap_bits, *column) as usize;
    }
    len
}

impl Layout {
    /// The width of a column in bytes.
    pub(crate) fn column_width(&self, table: u8, column: usize) -> u8
        requires { column < spec.column_count table }
        ensures exact { result ≡ get_or (map (width self.now.counts self.now.heap_bits) (columns table)) column 0 }
        ensures small { result ≤ 4 }
    {
        width_of(&self.counts, self.heap_bits, columns_of(table)[column])
    }
}

/// The length of `#~` before it is padded.
#[tactic(auto, unfolding(crate::specs::Lengths::tables_len))]
fn tables_len(draft: &Draft, counts: &[u32], heap_bits: u8) -> usize
    requires counts { counts.now ≡ spec.counts draft.now }
    requires bits { heap_bits ≡ spec.heap_bits draft.now }
    requires few { HasFewRows draft.now }
    ensures exact { result ≡ lengths.tables_len draft.now }
    ensures near { result < 2 ^ 43 }
{
    let mut present = 0;
    let mut rows_len = 0;
    for t in 0..TABLE_COUNT {
        let rows = row_count(draft, t as u8);
        present += usize::from(rows > 0);
        rows_len += rows * row_len(counts, heap_bits, t as u8);
    }
    24 + 4 * present + rows_len
}

/// Whether the heaps and the bodies are each below the limit of an image.
fn are_short(draft: &Draft) -> bool
    ensures { result ≡ is_short draft.now }
{
    draft.strings.as_slice().len() < LIMIT
        && draft.users.as_slice().len() < LIMIT
        && draft.guids.as_slice().len() < LIMIT
        && draft.blobs.as_slice().len() < LIMIT
        && draft.bodies.as_slice().len() < LIMIT
}

/// The length of a heap that is never empty.
#[tactic(auto, unfolding(crate::specs::Lengths::filled_len))]
pub(crate) fn filled_len(len: usize) -> usize
    requires { len < 2 ^ 63 }
    ensures exact { result ≡ lengths.filled_len len }
    ensures near { result ≤ len + 4 }
{
    if len == 0 { 4 } else { rounded(len) }
}

/// The length of the metadata.
#[tactic(auto, unfolding(crate::specs::Lengths::metadata_len))]
fn metadata_len(draft: &Draft, tables_len: usize) -> usize
    requires short { is_short draft.now ≡ true }
    requires tables { tables_len ≡ lengths.tables_len draft.now }
    requires near { tables_len < 2 ^ 43 }
    ensures exact { result ≡ lengths.metadata_len draft.now }
    ensures near { result < 2 ^ 44 }
{
    108 + rounded(tables_len)
        + rounded(draft.strings.as_slice().len())
        + filled_len(draft.users.as_slice().len())
        + rounded(draft.guids.as_slice().len())
        + filled_len(draft.blobs.as_slice().len())
}

/// Works it out, where the image has fewer bytes than the limit.
pub(crate) fn layout_of(draft: &Draft) -> Option<Layout>
    ensures exact { is_some result ≡ nat_lt (lengths.image_len draft.now) (2 ^ 31) }
    ensures layout { IfSome result (λ layout. IsLayout draft.now layout) }
{
    if !are_short(draft) {
        return None;
    }
    let counts = counts_of(draft)?;
    let heap_bits = heap_bits(draft);
    let tables_len = tables_len(draft, &counts, heap_bits);
    let metadata_len = metadata_len(draft, tables_len);
    if 584 + metadata_len + draft.bodies.as_slice().len() >= LIMIT {
        return None;
    }
    Some(Layout {
        counts,
        heap_bits,
        tables_len,
        metadata_len,
    })
}
