//! Setting the words of records.
ghost use Rattle.std.specs.Prelude.{◌≡◌, ℕ, ◌/◌, ◌%◌, ◌<◌, IfOk, IfErr};
ghost use Rattle.clr_base.specs.declared.ids.Handle.{Handle as HandleSpec};
ghost use Rattle.word_board.specs.Places.{row_place};
ghost use Rattle.word_board.specs.Views.{Grown, KeepsOne, Known};
ghost use Rattle.word_board.specs.Boards.{IsSeatOf, IsSame, page_of, view_of};
ghost use Rattle.node_set.specs.Nodes.{word_of as node_word};
ghost use Rattle.node_set.specs.Keys.{Key, Spells};
ghost use Rattle.node_set.specs.Probing.{Before};
ghost use Rattle.node_set.specs.declared.node.Node.TheVariants.{Row};
ghost use Rattle.type_record.specs.Words.{word_of, FitsWord};
ghost use Rattle.key_rows.specs.Facts.{HasRow};
ghost use Rattle.key_rows.specs.Rows.{IsRowOf, WordSet, WordMay};

use crate::rows::Rows;
use clr_base::{Handle, TableFull};
use node_set::{Cell, Node, put};
use type_record::Entry;
use word_board::{Board, Seat};

/// The cell that has a row of a key's record: the key's own for row 0, else that of the row's node,
/// which is set if it stands in no cell. TableFull comes where each cell was loaded as set to another node.
///
/// By what the pass has seen the key may have its record set, which has words in this row.
pub fn put_row<P: Rows>(
    board: &Board<P>,
    seat: &mut Seat<P>,
    key: Handle,
    row: u32,
) -> Result<Cell, TableFull>
    requires own { IsSeatOf board.now seat.old }
    requires may { let page = page_of board.now in let seen = (view_of seat.old).seen in (k : Key)
        × Spells (P.cell_count page) seen key.0 k
        × P.granted page seen k × HasRow (P.facts page) k row }
    ensures own { IsSame seat.old seat.new × IsSeatOf board.now seat.new }
    ensures view { Grown (view_of seat.old) (view_of seat.new) }
    ensures row { IfOk result (λ c.
        IsRowOf (P.cell_count (page_of board.now)) (view_of seat.new).seen key.0 row c.0) }
    ensures first { row ≡ 0 → view_of seat.new ≡ view_of seat.old }
    ensures kept { IfOk result (λ c. 0 < row
        → KeepsOne (view_of seat.old) (view_of seat.new) c.0 (node_word (Row key row))) }
    ensures full { IfErr result (λ _. (0 < row)
        × Before (P.cell_count (page_of board.now)) (view_of seat.new).seen (node_word (Row key row))
        (P.cell_count (page_of board.now))
        × ((view_of seat.new).kept ≡ (view_of seat.old).kept)) }
{
    if row == 0 {
        return Ok(Cell(key.0));
    }
    put(board, seat, Node::Row { key, row })
}

/// Sets a word of a key's record, if it isn't set. No other word may stand there.
///
/// The cell has the word's row, and by what the pass has seen the word may stand.
pub fn fill<P: Rows>(
    board: &Board<P>,
    seat: &mut Seat<P>,
    key: Handle,
    cell: Cell,
    word: u64,
    entry: Entry<Handle>,
)
    requires own { IsSeatOf board.now seat.old }
    requires row { IsRowOf (P.cell_count (page_of board.now)) (view_of seat.old).seen key.0 (word / 32) cell.0 }
    requires fits { FitsWord entry }
    requires may { let page = page_of board.now in let seen = (view_of seat.old).seen in (k : Key)
        × Spells (P.cell_count page) seen key.0 k
        × P.granted page seen k × WordMay (P.cell_count page) seen (P.facts page) key.0 k word (word_of entry) }
    ensures own { IsSame seat.old seat.new × IsSeatOf board.now seat.new }
    ensures set { WordSet (P.cell_count (page_of board.now)) (view_of seat.new).seen key.0 word (word_of entry) }
    ensures view { Grown (view_of seat.old) (view_of seat.new) }
    ensures kept { KeepsOne (view_of seat.old) (view_of seat.new)
        (row_place (P.cell_count (page_of board.now)) cell.0 (word % 32)) (word_of entry) }
    ensures known { Known P.may (view_of seat.new) }
{
    let wanted = entry.word();
    let place = board.row_place(cell.0, (word % 32) as u32);
    let stood = board.settle(seat, place, wanted);
    if stood != wanted {
        unreachable!();
    }
}
