//! Taking a slot for a signature in the layout of a canonical key.
ghost use Rattle.std.specs.Prelude.{◌≡◌, ℕ, ◌+◌, ◌*◌, ◌<◌, List, IfOk, IfErr, IfSome, IfNone};
ghost use Rattle.word_board.specs.Marks.{mark, Within};
ghost use Rattle.word_board.specs.Places.{row_place};
ghost use Rattle.word_board.specs.Views.{number_of, Grown, KeepsOne, Known, SeenAt};
ghost use Rattle.word_board.specs.Boards.{IsSeatOf, IsSame, page_of, view_of};
ghost use Rattle.word_board.specs.declared.view.Mark.{Mark};
ghost use Rattle.node_set.specs.Nodes.{word_of};
ghost use Rattle.node_set.specs.Probing.{Before};
ghost use Rattle.dict_slots.specs.Slots.{HasSlot, OthersBefore};
ghost use Rattle.dict_slots.specs.Searches.{RowOthers, SegmentsMay, SlotMay, KeepsSegments, KeepsSlot};

use crate::slots::{SEGMENTS, Slots, WORDS};
use clr_base::{Handle, SigId, TableFull};
use node_set::{Node, put};
use word_board::{Board, Seat};

// The word of a row in which the signature's stands, which is set in the first free word if it stands in none.
// None where other signatures have all words.
fn take_row<P: Slots>(board: &Board<P>, seat: &mut Seat<P>, cell: u32, sig: SigId) -> Option<u32>
    requires own { IsSeatOf board.now seat.old }
    requires cell { cell < P.cell_count (page_of board.now) }
    requires may { (more : List Mark) (w : ℕ) → Within (view_of seat.old).seen more → w < 32
        → RowOthers (P.cell_count (page_of board.now)) more cell sig w
        → P.may (page_of board.now) more
        (mark (row_place (P.cell_count (page_of board.now)) cell w) (sig.0 + 1)
        (number_of (view_of seat.old))) }
    ensures own { IsSame seat.old seat.new × IsSeatOf board.now seat.new }
    ensures view { Grown (view_of seat.old) (view_of seat.new) }
    ensures known { Known P.may (view_of seat.new) }
    ensures found { IfSome result (λ w. (w < 32)
        × SeenAt (view_of seat.new) (row_place (P.cell_count (page_of board.now)) cell w) (sig.0 + 1)
        × KeepsOne (view_of seat.old) (view_of seat.new)
        (row_place (P.cell_count (page_of board.now)) cell w) (sig.0 + 1)) }
    ensures none { IfNone result (RowOthers (P.cell_count (page_of board.now)) (view_of seat.new).seen cell sig 32
        × ((view_of seat.new).kept ≡ (view_of seat.old).kept)) }
{
    let wanted = sig.0 as u64 + 1;
    for word in 0..WORDS {
        let place = board.row_place(cell, word);
        if board.settle(seat, place, wanted) == wanted {
            return Some(word);
        }
    }
    None
}

/// The slot of a signature in the layout of a canonical key, which takes the first free one if it has none.
/// Segments of the layout are put where they are wanted. None comes exactly where 2,048 slots were loaded
/// as other signatures', and TableFull where for a segment each cell was loaded as set to another node.
///
/// By the words that the pass has seen, the segments and the signature's word have to be such that may stand,
/// the slots and cells before them aside.
pub fn slot_of<P: Slots>(
    board: &Board<P>,
    seat: &mut Seat<P>,
    canonical: Handle,
    sig: SigId,
) -> Result<Option<u32>, TableFull>
    requires own { IsSeatOf board.now seat.old }
    requires segments { SegmentsMay (P.may (page_of board.now)) (P.cell_count (page_of board.now))
        (view_of seat.old).seen canonical sig (number_of (view_of seat.old)) }
    requires slot { SlotMay (P.may (page_of board.now)) (P.cell_count (page_of board.now))
        (view_of seat.old).seen canonical sig (number_of (view_of seat.old)) }
    ensures own { IsSame seat.old seat.new × IsSeatOf board.now seat.new }
    ensures view { Grown (view_of seat.old) (view_of seat.new) }
    ensures known { Known P.may (view_of seat.new) }
    ensures slot { IfOk result (λ r. IfSome r (λ n. (n < 2048)
        × HasSlot (P.cell_count (page_of board.now)) (view_of seat.new).seen canonical n sig
        × KeepsSlot (P.cell_count (page_of board.now)) (view_of seat.old) (view_of seat.new) canonical sig n)) }
    ensures none { IfOk result (λ r. IfNone r (
        OthersBefore (P.cell_count (page_of board.now)) (view_of seat.new).seen canonical sig 2048
        × KeepsSegments (P.cell_count (page_of board.now)) (view_of seat.old) (view_of seat.new) canonical 64)) }
    ensures full { IfErr result (λ _. (segment : ℕ) × (segment < 64)
        × OthersBefore (P.cell_count (page_of board.now)) (view_of seat.new).seen canonical sig (32 * segment)
        × Before (P.cell_count (page_of board.now)) (view_of seat.new).seen
        (word_of (Node.LayoutSegment canonical segment)) (P.cell_count (page_of board.now))
        × KeepsSegments (P.cell_count (page_of board.now)) (view_of seat.old) (view_of seat.new)
        canonical segment) }
{
    for segment in 0..SEGMENTS {
        let cell = put(board, seat, Node::LayoutSegment { canonical, segment })?;
        if let Some(word) = take_row(board, seat, cell.0, sig) {
            return Ok(Some(WORDS * segment + word));
        }
    }
    Ok(None)
}
