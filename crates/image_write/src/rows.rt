//! The stream `#~` (ECMA-335 II.24.2.6): which tables have rows, how many, and the rows.
ghost use Rattle.std.specs.Prelude.{◌≡◌, ◌++◌, ◌<◌, OnOk};
ghost use Rattle.image_write.specs.Drafts as drafts;
ghost use Rattle.image_write.specs.Image as spec;
ghost use Rattle.image_write.specs.Layouts.{IsLayout};
ghost use Rattle.image_write.specs.Pieces.{joined};

use crate::draft::Draft;
use crate::layout::{Layout, cell_of, row_count};
use crate::pieces::{number, push_number, push_structure};
use cli_tables::{TABLE_COUNT, columns_of};
use std::alloc::AllocError;

/// Where the metadata begins when the image is loaded.
const METADATA_RVA: usize = 0x2048;

/// The table MethodDef.
const METHOD_DEF: u8 = 0x06;

/// The table FieldRVA.
const FIELD_RVA: u8 = 0x1d;

/// Whether a column holds the RVA of a method or of a field's data.
pub(crate) fn is_rva(table: u8, column: usize) -> bool
    ensures { result ≡ spec.is_rva table column }
{
    column == 0 && (table == METHOD_DEF || table == FIELD_RVA)
}

/// The number that is written for a cell.
#[tactic(auto, unfolding(crate::specs::Image::written))]
fn number_of(draft: &Draft, layout: &Layout, table: u8, row: usize, column: usize) -> u64
    requires layout { IsLayout draft.now layout.now }
    requires row { row < drafts.rows draft.now table }
    requires column { column < drafts.column_count table }
    ensures { result ≡ spec.written draft.now table row column }
{
    let cell = cell_of(draft, table, row, column);
    if is_rva(table, column) && cell > 0 {
        (METADATA_RVA + layout.metadata_len) as u64 + u64::from(cell - 1)
    } else {
        u64::from(cell)
    }
}

/// Appends a row, which counts from 0.
#[tactic(auto, unfolding(crate::specs::Image::row_bytes))]
fn push_row(
    out: &mut Vec<u8>,
    draft: &Draft,
    layout: &Layout,
    table: u8,
    row: usize,
) -> Result<(), AllocError>
    requires layout { IsLayout draft.now layout.now }
    requires row { row < drafts.rows draft.now table }
    ensures { OnOk result (out.new.items ≡ out.old.items ++ spec.row_bytes draft.now table row) }
{
    for c in 0..columns_of(table).len() {
        let width = layout.column_width(table, c);
        push_number(out, width, number_of(draft, layout, table, row, c))?;
    }
    Ok(())
}

#[tactic(auto, unfolding(crate::specs::Image::table_bytes))]
fn push_table(
    out: &mut Vec<u8>,
    draft: &Draft,
    layout: &Layout,
    table: u8,
) -> Result<(), AllocError>
    requires { IsLayout draft.now layout.now }
    ensures { OnOk result (out.new.items ≡ out.old.items ++ spec.table_bytes draft.now table) }
{
    for row in 0..row_count(draft, table) {
        push_row(out, draft, layout, table, row)?;
    }
    Ok(())
}

fn push_rows(out: &mut Vec<u8>, draft: &Draft, layout: &Layout) -> Result<(), AllocError>
    requires { IsLayout draft.now layout.now }
    ensures { OnOk result (out.new.items ≡ out.old.items ++ joined 45 (spec.table_bytes draft.now)) }
{
    for t in 0..TABLE_COUNT {
        push_table(out, draft, layout, t as u8)?;
    }
    Ok(())
}

/// Appends the count of rows of a table that has rows.
#[tactic(auto, unfolding(crate::specs::Image::count_bytes))]
fn push_count(out: &mut Vec<u8>, draft: &Draft, table: u8) -> Result<(), AllocError>
    ensures { OnOk result (out.new.items ≡ out.old.items ++ spec.count_bytes draft.now table) }
{
    let rows = row_count(draft, table);
    if rows > 0 {
        push_number(out, 4, rows as u64)?;
    }
    Ok(())
}

fn push_counts(out: &mut Vec<u8>, draft: &Draft) -> Result<(), AllocError>
    ensures { OnOk result (out.new.items ≡ out.old.items ++ joined 45 (spec.count_bytes draft.now)) }
{
    for t in 0..TABLE_COUNT {
        push_count(out, draft, t as u8)?;
    }
    Ok(())
}

/// The mask of the tables with rows.
fn valid_mask(draft: &Draft) -> u64
    ensures { result ≡ drafts.valid draft.now }
{
    let mut mask = 0;
    for t in 0..TABLE_COUNT {
        if row_count(draft, t as u8) > 0 {
            mask += 1 << t;
        }
    }
    mask
}

/// The versions, HeapSizes, Valid, and that no table is sorted.
#[tactic(auto, unfolding(crate::specs::Image::tables_header))]
fn push_tables_header(out: &mut Vec<u8>, heap_bits: u8, mask: u64) -> Result<(), AllocError>
    ensures { OnOk result (out.new.items ≡ out.old.items ++ spec.tables_header heap_bits mask) }
{
    let fields = [
        number(4, 1, 2),
        number(6, 1, u64::from(heap_bits)),
        number(7, 1, 1),
        number(8, 8, mask),
    ];
    push_structure(out, 24, &fields)
}

/// Appends the stream.
#[tactic(auto, unfolding(crate::specs::Image::tables))]
pub(crate) fn push_tables(
    out: &mut Vec<u8>,
    draft: &Draft,
    layout: &Layout,
) -> Result<(), AllocError>
    requires { IsLayout draft.now layout.now }
    ensures { OnOk result (out.new.items ≡ out.old.items ++ spec.tables draft.now) }
{
    push_tables_header(out, layout.heap_bits, valid_mask(draft))?;
    push_counts(out, draft)?;
    push_rows(out, draft, layout)
}
