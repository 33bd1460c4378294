//! The dictionaries of exact keys: putting segments, reading and filling words.
ghost use Rattle.std.specs.Prelude.{◌≡◌, ℕ, ◌+◌, ◌/◌, ◌%◌, ◌<◌, ◌≤◌, [], ◌∷◌, ◌++◌, IfOk, IfErr, IfSome, IfNone};
ghost use Rattle.clr_base.specs.declared.ids.Handle.{Handle};
ghost use Rattle.word_board.specs.Marks.{mark};
ghost use Rattle.word_board.specs.Places.{row_place};
ghost use Rattle.word_board.specs.Views.{number_of, Grown, SeenAt, KeepsOne, Vacant, Known};
ghost use Rattle.word_board.specs.Boards.{IsSeatOf, IsSame, page_of, view_of};
ghost use Rattle.node_set.specs.Nodes.{word_of};
ghost use Rattle.node_set.specs.Keys.{Stands};
ghost use Rattle.node_set.specs.Probing.{Before};
ghost use Rattle.dict_slots.specs.Searches.{NodeMayBut};

use crate::slots::{Slots, WORDS};
use clr_base::{Handle, TableFull};
use node_set::{Cell, Node, put};
use word_board::{Board, Seat};

// The handle of a word of a dictionary.
fn handle_of(word: u64) -> Handle
    requires { (0 < word) × (word ≤ 4294967296) }
    ensures { result.0 + 1 ≡ word }
{
    Handle((word - 1) as u32)
}

/// The cell of the segment with this slot in the dictionary of an exact key, which is set there if it stands in none.
/// TableFull comes where each cell was loaded as set to another node.
///
/// By the words that the pass has seen the segment has to be one that may stand,
/// the cells before it in its probing order aside.
pub fn segment<P: Slots>(
    board: &Board<P>,
    seat: &mut Seat<P>,
    exact: Handle,
    slot: u32,
) -> Result<Cell, TableFull>
    requires own { IsSeatOf board.now seat.old }
    requires may { NodeMayBut (P.may (page_of board.now)) (P.cell_count (page_of board.now))
        (view_of seat.old).seen (Node.DictionarySegment exact (slot / 32)) (number_of (view_of seat.old)) }
    ensures own { IsSame seat.old seat.new × IsSeatOf board.now seat.new }
    ensures view { Grown (view_of seat.old) (view_of seat.new) }
    ensures known { Known P.may (view_of seat.new) }
    ensures cell { IfOk result (λ c.
        Stands (P.cell_count (page_of board.now)) (view_of seat.new).seen c.0
        (Node.DictionarySegment exact (slot / 32))) }
    ensures kept { IfOk result (λ c. KeepsOne (view_of seat.old) (view_of seat.new) c.0
        (word_of (Node.DictionarySegment exact (slot / 32)))) }
    ensures full { IfErr result (λ _.
        Before (P.cell_count (page_of board.now)) (view_of seat.new).seen
        (word_of (Node.DictionarySegment exact (slot / 32))) (P.cell_count (page_of board.now))
        × ((view_of seat.new).kept ≡ (view_of seat.old).kept)) }
{
    let segment = slot / WORDS;
    put(board, seat, Node::DictionarySegment { exact, segment })
}

/// The handle that fills a slot of a dictionary, by the cell of the slot's segment.
/// None exactly where the slot's word was loaded as 0.
pub fn read<P: Slots>(board: &Board<P>, seat: &mut Seat<P>, cell: Cell, slot: u32) -> Option<Handle>
    requires own { IsSeatOf board.now seat.old }
    requires segment { (exact : Handle)
        × Stands (P.cell_count (page_of board.now)) (view_of seat.old).seen cell.0
        (Node.DictionarySegment exact (slot / 32)) }
    ensures own { IsSame seat.old seat.new × IsSeatOf board.now seat.new }
    ensures view { Grown (view_of seat.old) (view_of seat.new)
        × ((view_of seat.new).kept ≡ (view_of seat.old).kept) }
    ensures known { Known P.may (view_of seat.new) }
    ensures filled { IfSome result (λ h. (h.0 < P.cell_count (page_of board.now))
        × SeenAt (view_of seat.new) (row_place (P.cell_count (page_of board.now)) cell.0 (slot % 32)) (h.0 + 1)) }
    ensures none { IfNone result ((view_of seat.new ≡ view_of seat.old)
        × Vacant P.may (view_of seat.old)
        (row_place (P.cell_count (page_of board.now)) cell.0 (slot % 32))) }
{
    let place = board.row_place(cell.0, slot % WORDS);
    let word = board.look(seat, place);
    if word == 0 {
        return None;
    }
    Some(handle_of(word))
}

/// Fills a slot of a dictionary with a handle, by the cell of the slot's segment.
/// None where this call filled it, else the handle that filled it already.
///
/// By the words that the pass has seen the handle's word has to be one that may stand there.
pub fn fill<P: Slots>(
    board: &Board<P>,
    seat: &mut Seat<P>,
    cell: Cell,
    slot: u32,
    handle: Handle,
) -> Option<Handle>
    requires own { IsSeatOf board.now seat.old }
    requires segment { (exact : Handle)
        × Stands (P.cell_count (page_of board.now)) (view_of seat.old).seen cell.0
        (Node.DictionarySegment exact (slot / 32)) }
    requires may { P.may (page_of board.now) (view_of seat.old).seen
        (mark (row_place (P.cell_count (page_of board.now)) cell.0 (slot % 32)) (handle.0 + 1)
        (number_of (view_of seat.old))) }
    ensures own { IsSame seat.old seat.new × IsSeatOf board.now seat.new }
    ensures view { Grown (view_of seat.old) (view_of seat.new) }
    ensures known { Known P.may (view_of seat.new) }
    ensures filled { IfNone result (
        SeenAt (view_of seat.new) (row_place (P.cell_count (page_of board.now)) cell.0 (slot % 32)) (handle.0 + 1)
        × ((view_of seat.new).kept ≡ (view_of seat.old).kept
        ++ mark (row_place (P.cell_count (page_of board.now)) cell.0 (slot % 32)) (handle.0 + 1)
        (number_of (view_of seat.old)) ∷ [])) }
    ensures stood { IfSome result (λ h. (h.0 < P.cell_count (page_of board.now))
        × SeenAt (view_of seat.new) (row_place (P.cell_count (page_of board.now)) cell.0 (slot % 32)) (h.0 + 1)
        × ((view_of seat.new).kept ≡ (view_of seat.old).kept)) }
{
    let place = board.row_place(cell.0, slot % WORDS);
    let old = board.set(seat, place, handle.0 as u64 + 1);
    if old == 0 {
        return None;
    }
    Some(handle_of(old))
}
