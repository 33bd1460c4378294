//! Finding the slot of a signature in the layout of a canonical key.
ghost use Rattle.std.specs.Prelude.{◌≡◌, ℕ, ◌+◌, ◌<◌, IfSome, IfNone};
ghost use Rattle.word_board.specs.Views.{Grown, Known};
ghost use Rattle.word_board.specs.Boards.{IsSeatOf, IsSame, page_of, view_of};
ghost use Rattle.dict_slots.specs.Slots.{HasSlot};
ghost use Rattle.dict_slots.specs.Searches.{Ends, NoSlotFound};

use crate::slots::{SEGMENTS, Slots, WORDS};
use clr_base::{Handle, SigId};
use node_set::{Node, seek};
use word_board::{Board, Seat};

/// How the search of a row for a signature's word ended.
pub enum RowEnd {
    /// At the signature's word.
    Found(u32),
    /// At a word that was loaded as 0.
    Free(u32),
    /// Behind the last word: other signatures have them all.
    Others,
}

// Searches a row for a signature's word. Nothing is set.
fn seek_row<P: Slots>(board: &Board<P>, seat: &mut Seat<P>, cell: u32, sig: SigId) -> RowEnd
    requires own { IsSeatOf board.now seat.old }
    requires cell { cell < P.cell_count (page_of board.now) }
    ensures own { IsSame seat.old seat.new × IsSeatOf board.now seat.new }
    ensures view { Grown (view_of seat.old) (view_of seat.new)
        × ((view_of seat.new).kept ≡ (view_of seat.old).kept) }
    ensures known { Known P.may (view_of seat.new) }
    ensures ends { Ends P.may (P.cell_count (page_of board.now)) (view_of seat.new) cell sig result }
{
    let wanted = sig.0 as u64 + 1;
    for word in 0..WORDS {
        let place = board.row_place(cell, word);
        let found = board.look(seat, place);
        if found == wanted {
            return RowEnd::Found(word);
        }
        if found == 0 {
            return RowEnd::Free(word);
        }
    }
    RowEnd::Others
}

/// The slot of a signature in the layout of a canonical key. Nothing is set.
/// None where slots were loaded as other signatures', and then the segment of a slot or its word as not set,
/// or where 2,048 slots were loaded as other signatures', or where the handle is no cell's number.
pub fn seek_slot<P: Slots>(
    board: &Board<P>,
    seat: &mut Seat<P>,
    canonical: Handle,
    sig: SigId,
) -> Option<u32>
    requires own { IsSeatOf board.now seat.old }
    ensures own { IsSame seat.old seat.new × IsSeatOf board.now seat.new }
    ensures view { Grown (view_of seat.old) (view_of seat.new)
        × ((view_of seat.new).kept ≡ (view_of seat.old).kept) }
    ensures known { Known P.may (view_of seat.new) }
    ensures slot { IfSome result (λ n. (n < 2048)
        × HasSlot (P.cell_count (page_of board.now)) (view_of seat.new).seen canonical n sig) }
    ensures none { IfNone result
        (NoSlotFound (P.may (page_of board.now)) (P.cell_count (page_of board.now))
        (view_of seat.new).seen canonical sig) }
{
    // A layout belongs to a key, whose handle is the number of a cell.
    if canonical.0 >= board.page().cells() {
        board.recall(seat);
        return None;
    }
    for segment in 0..SEGMENTS {
        let cell = seek(board, seat, Node::LayoutSegment { canonical, segment })?;
        match seek_row(board, seat, cell.0, sig) {
            RowEnd::Found(word) => return Some(WORDS * segment + word),
            RowEnd::Free(_) => return None,
            RowEnd::Others => {}
        }
    }
    None
}
