//! The probing of a node.
ghost use Rattle.std.specs.Prelude.{◌≡◌, ◌≢◌, ℕ, ◌+◌, ◌*◌, ◌%◌, ◌<◌, ◌≤◌, List, IfOk, IfErr, IfSome, IfNone};
ghost use Rattle.word_board.specs.Views.{number_of, Grown, SeenAt, KeepsOne, Known};
ghost use Rattle.word_board.specs.Boards.{IsSeatOf, IsSame, page_of, view_of};
ghost use Rattle.node_set.specs.Nodes.{word_of};
ghost use Rattle.node_set.specs.Probing.{probe, Before, MayBut, Absent};

use crate::node::Node;
use crate::nodes::Nodes;
use clr_base::TableFull;
use word_board::{Board, Seat};

/// The number of a cell, which is the handle of the node in it.
#[derive(Clone, Copy, PartialEq, Eq)]
pub struct Cell(pub u32);

// The k-th cell that is probed, from 0.
fn probed(word: u64, cells: u32, k: u32) -> u32
    requires { (0 < cells) × (k < cells) }
    ensures { (result ≡ probe cells word k) × (result < cells) }
{
    ((word % 1_000_003 % cells as u64 + k as u64) % cells as u64) as u32
}

/// The cell of a node, which is set there if it stands in none.
/// TableFull comes where each cell was loaded as set to another node.
///
/// By the words that the pass has seen the node has to be one that may stand,
/// the cells before it in its probing order aside.
/// Each cell is loaded once at most, from `word modulo 1,000,003 modulo cells` upwards,
/// and cell 0 comes behind the last.
pub fn put<P: Nodes>(board: &Board<P>, seat: &mut Seat<P>, node: Node) -> Result<Cell, TableFull>
    requires own { IsSeatOf board.now seat.old }
    requires may { MayBut (P.may (page_of board.now)) (P.cell_count (page_of board.now))
        (view_of seat.old).seen (word_of node) (number_of (view_of seat.old)) }
    ensures own { IsSame seat.old seat.new × IsSeatOf board.now seat.new }
    ensures view { Grown (view_of seat.old) (view_of seat.new) }
    ensures known { Known P.may (view_of seat.new) }
    ensures cell { IfOk result (λ c.
        (c.0 < P.cell_count (page_of board.now)) × SeenAt (view_of seat.new) c.0 (word_of node)) }
    ensures kept { IfOk result (λ c. KeepsOne (view_of seat.old) (view_of seat.new) c.0 (word_of node)) }
    ensures full { IfErr result (λ _.
        Before (P.cell_count (page_of board.now)) (view_of seat.new).seen (word_of node)
        (P.cell_count (page_of board.now))
        × ((view_of seat.new).kept ≡ (view_of seat.old).kept)) }
{
    let word = node.word();
    let cells = board.page().cells();
    for k in 0..cells {
        let place = probed(word, cells, k);
        if board.settle(seat, place, word) == word {
            return Ok(Cell(place));
        }
    }
    Err(TableFull)
}

/// The cell of a node. Nothing is set.
/// None where a cell of its probing order was loaded as 0 before the node was met,
/// or where each cell was loaded as set to another node.
pub fn seek<P: Nodes>(board: &Board<P>, seat: &mut Seat<P>, node: Node) -> Option<Cell>
    requires own { IsSeatOf board.now seat.old }
    ensures own { IsSame seat.old seat.new × IsSeatOf board.now seat.new }
    ensures view { Grown (view_of seat.old) (view_of seat.new)
        × ((view_of seat.new).kept ≡ (view_of seat.old).kept) }
    ensures known { Known P.may (view_of seat.new) }
    ensures cell { IfSome result (λ c.
        (c.0 < P.cell_count (page_of board.now)) × SeenAt (view_of seat.new) c.0 (word_of node)) }
    ensures none { IfNone result
        (Absent (P.may (page_of board.now)) (P.cell_count (page_of board.now))
        (view_of seat.new).seen (word_of node)) }
{
    let word = node.word();
    let cells = board.page().cells();
    for k in 0..cells {
        let place = probed(word, cells, k);
        let found = board.look(seat, place);
        if found == word {
            return Some(Cell(place));
        }
        if found == 0 {
            return None;
        }
    }
    None
}
