//! Which drafts can be written.
ghost use Rattle.std.specs.Prelude.{◌≡◌, ◌<◌, true};
ghost use Rattle.std.specs.List.{list_all, range_with_len};
ghost use Rattle.image_write.specs.Drafts as drafts;
ghost use Rattle.image_write.specs.Fitting as spec;
ghost use Rattle.image_write.specs.Layouts.{IsLayout};

use crate::draft::Draft;
use crate::layout::{Layout, cell_of, cells_of, layout_of, row_count};
use crate::rows::is_rva;
use cli_tables::{TABLE_COUNT, columns_of};

#[tactic(auto, unfolding(crate::specs::Fitting::cell_fits, crate::specs::Drafts::column_width))]
fn cell_fits(draft: &Draft, layout: &Layout, table: u8, row: usize, column: usize) -> bool
    requires layout { IsLayout draft.now layout.now }
    requires row { row < drafts.rows draft.now table }
    requires column { column < drafts.column_count table }
    ensures { result ≡ spec.cell_fits draft.now table row column }
{
    let cell = cell_of(draft, table, row, column);
    if is_rva(table, column) {
        cell as usize <= draft.bodies.as_slice().len()
    } else {
        let width = layout.column_width(table, column);
        u64::from(cell) < 256_u64.pow(u32::from(width))
    }
}

#[tactic(auto, unfolding(crate::specs::Fitting::row_fits))]
fn row_fits(draft: &Draft, layout: &Layout, table: u8, row: usize) -> bool
    requires layout { IsLayout draft.now layout.now }
    requires row { row < drafts.rows draft.now table }
    ensures { result ≡ spec.row_fits draft.now table row }
{
    (0..columns_of(table).len()).all(|column| cell_fits(draft, layout, table, row, column))
}

fn rows_fit(draft: &Draft, layout: &Layout, table: u8) -> bool
    requires { IsLayout draft.now layout.now }
    ensures { result ≡ list_all (spec.row_fits draft.now table) (range_with_len 0 (drafts.rows draft.now table)) }
{
    (0..row_count(draft, table)).all(|row| row_fits(draft, layout, table, row))
}

#[tactic(auto, unfolding(crate::specs::Fitting::table_fits))]
fn table_fits(draft: &Draft, layout: &Layout, table: u8) -> bool
    requires { IsLayout draft.now layout.now }
    ensures { result ≡ spec.table_fits draft.now table }
{
    let len = cells_of(draft, table).len();
    len == row_count(draft, table) * columns_of(table).len() && rows_fit(draft, layout, table)
}

fn tables_fit(draft: &Draft, layout: &Layout) -> bool
    requires { IsLayout draft.now layout.now }
    ensures { result ≡ list_all (spec.table_fits draft.now) (range_with_len 0 45) }
{
    (0..TABLE_COUNT as u8).all(|t| table_fits(draft, layout, t))
}

impl Draft {
    /// Whether it can be written: there are 45 tables and no bits of heaps but 1, 2 and 4; each table has whole rows, and
    /// none where the schema doesn't know it; each cell fits its column, and an RVA cell is at most the length of
    /// `bodies`; the image has fewer than 2,147,483,648 bytes. Takes no memory, and time in the number of cells.
    #[tactic(auto, unfolding(crate::specs::Fitting::fits))]
    pub fn fits(&self) -> bool
        ensures { result ≡ spec.fits self.now }
    {
        if self.tables.as_slice().len() != TABLE_COUNT || self.heap_sizes > 7 {
            return false;
        }
        let Some(layout) = layout_of(self) else {
            return false;
        };
        tables_fit(self, &layout)
    }
}
