//! The cells of the tables.
ghost use Rattle.std.specs.Prelude.{◌≡◌, ◌+◌, ◌≤◌, length, true};
ghost use Rattle.clr_base.specs.LittleEndian.{number_at};
ghost use Rattle.cli_tables.specs.Layout as spec;
ghost use Rattle.cli_tables.specs.Places.{IsTablePlace};

use crate::layout::TablePlace;
use clr_base::{read_u16, read_u32};

/// The number in 1, 2 or 4 bytes at a place.
#[tactic(auto, unfolding(clr_base::specs::LittleEndian::number_at))]
fn read_number(stream: &[u8], at: usize, width: u8) -> u32
    requires inside { at + width ≤ length stream.now }
    requires width { spec.is_read_width width ≡ true }
    ensures { result ≡ number_at width stream.now at }
{
    if width == 1 {
        u32::from(stream[at])
    } else if width == 2 {
        u32::from(read_u16(stream, at))
    } else {
        read_u32(stream, at)
    }
}

/// The number in a cell of a table, by the table's place.
#[tactic(auto, unfolding(crate::specs::Layout::cell))]
pub fn read_cell(stream: &[u8], place: &TablePlace, table: u8, row: u32, column: u8) -> u32
    requires whole { spec.are_tables stream.now ≡ true }
    requires place { IsTablePlace stream.now table place.now }
    requires cell { spec.IsCell stream.now table row column }
    ensures { result ≡ spec.cell stream.now table row column }
{
    let cell = place.cells[column as usize];
    let row_at = place.start + (row as usize - 1) * place.row_width as usize;
    read_number(stream, row_at + cell.offset as usize, cell.width)
}
