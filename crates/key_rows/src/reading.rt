//! Reading the records of loaded keys.
ghost use Rattle.std.specs.Prelude.{◌≡◌, ℕ, ◌/◌, ◌⊎◌};
ghost use Rattle.word_board.specs.Views.{Grown, Known};
ghost use Rattle.word_board.specs.Boards.{IsSeatOf, IsSame, page_of, view_of};
ghost use Rattle.node_set.specs.Keys.{Key as KeySpec};
ghost use Rattle.type_record.specs.declared.entry.Entry.{Entry as EntrySpec};
ghost use Rattle.type_record.specs.Words.{FitsWord};
ghost use Rattle.key_rows.specs.Facts.{Tells, IsOtherWord};
ghost use Rattle.key_rows.specs.Rows.{IsRowOf};
ghost use Rattle.key_rows.specs.Knowing.{Names, Knows, KnowsLevel, KnowsOptional, KnowsEntry};

use crate::rows::Rows;
use clr_base::Handle;
use node_set::{Cell, Node, seek};
use type_record::Entry;
use word_board::{Board, Seat};

// The cell that has the row with a word of the record of a known key.
fn seek_row<P: Rows>(board: &Board<P>, seat: &mut Seat<P>, key: Handle, word: u64) -> Cell
    requires own { IsSeatOf board.now seat.old }
    requires other { IsOtherWord word }
    requires known { let page = page_of board.now in (k : KeySpec) × (e : EntrySpec KeySpec)
        × Knows (P.may page) (P.cell_count page) (view_of seat.old).seen (P.facts page) key.0 k
        × Tells (P.facts page) k word e }
    ensures own { IsSame seat.old seat.new × IsSeatOf board.now seat.new }
    ensures view { Grown (view_of seat.old) (view_of seat.new)
        × ((view_of seat.new).kept ≡ (view_of seat.old).kept) }
    ensures row { IsRowOf (P.cell_count (page_of board.now)) (view_of seat.new).seen key.0 (word / 32) result.0 }
{
    let row = word / 32;
    if row == 0 {
        return Cell(key.0);
    }
    let Ok(row) = u32::try_from(row) else {
        board.recall(seat);
        unreachable!();
    };
    match seek(board, seat, Node::Row { key, row }) {
        Some(cell) => cell,
        None => unreachable!(),
    }
}

/// What a word of the record of a known key tells, a level word aside. The handle in it is known again.
///
/// A word below 32 takes one load, a later one also those that seek its row.
pub fn read_entry<P: Rows>(
    board: &Board<P>,
    seat: &mut Seat<P>,
    key: Handle,
    word: u64,
) -> Entry<Handle>
    requires own { IsSeatOf board.now seat.old }
    requires other { IsOtherWord word }
    requires known { let page = page_of board.now in (k : KeySpec) × (e : EntrySpec KeySpec)
        × Knows (P.may page) (P.cell_count page) (view_of seat.old).seen (P.facts page) key.0 k
        × Tells (P.facts page) k word e }
    ensures own { IsSame seat.old seat.new × IsSeatOf board.now seat.new }
    ensures view { Grown (view_of seat.old) (view_of seat.new)
        × ((view_of seat.new).kept ≡ (view_of seat.old).kept) }
    ensures told { let page = page_of board.now in (k : KeySpec) (e : EntrySpec KeySpec)
        → Names (P.may page) (P.cell_count page) (view_of seat.old).seen key.0 k
        → Tells (P.facts page) k word e
        → KnowsEntry (P.may page) (P.cell_count page) (view_of seat.new).seen (P.facts page) result e }
    ensures fits { FitsWord result }
    ensures known { Known P.may (view_of seat.new) }
{
    let cell = seek_row(board, seat, key, word);
    let place = board.row_place(cell.0, (word % 32) as u32);
    let stood = board.look(seat, place);
    match Entry::read(stood) {
        Some(entry) => entry,
        None => unreachable!(),
    }
}

/// The handle in a word of the record of a known key, a level word aside; None where it has none.
/// The handle is known again.
pub fn read_handle<P: Rows>(
    board: &Board<P>,
    seat: &mut Seat<P>,
    key: Handle,
    word: u64,
) -> Option<Handle>
    requires own { IsSeatOf board.now seat.old }
    requires other { IsOtherWord word }
    requires known { let page = page_of board.now in (k : KeySpec) × (e : EntrySpec KeySpec)
        × Knows (P.may page) (P.cell_count page) (view_of seat.old).seen (P.facts page) key.0 k
        × Tells (P.facts page) k word e }
    ensures own { IsSame seat.old seat.new × IsSeatOf board.now seat.new }
    ensures view { Grown (view_of seat.old) (view_of seat.new)
        × ((view_of seat.new).kept ≡ (view_of seat.old).kept) }
    ensures handle { let page = page_of board.now in (k : KeySpec) (e : EntrySpec KeySpec)
        → Names (P.may page) (P.cell_count page) (view_of seat.old).seen key.0 k
        → Tells (P.facts page) k word e
        → KnowsOptional (P.may page) (P.cell_count page) (view_of seat.new).seen (P.facts page) result e.key }
    ensures known { Known P.may (view_of seat.new) }
{
    let entry = read_entry(board, seat, key, word);
    entry.key
}

/// The number in a word of the record of a known key, a level word aside.
pub fn read_number<P: Rows>(board: &Board<P>, seat: &mut Seat<P>, key: Handle, word: u64) -> u64
    requires own { IsSeatOf board.now seat.old }
    requires other { IsOtherWord word }
    requires known { let page = page_of board.now in (k : KeySpec) × (e : EntrySpec KeySpec)
        × Knows (P.may page) (P.cell_count page) (view_of seat.old).seen (P.facts page) key.0 k
        × Tells (P.facts page) k word e }
    ensures own { IsSame seat.old seat.new × IsSeatOf board.now seat.new }
    ensures view { Grown (view_of seat.old) (view_of seat.new)
        × ((view_of seat.new).kept ≡ (view_of seat.old).kept) }
    ensures number { let page = page_of board.now in (k : KeySpec) (e : EntrySpec KeySpec)
        → Names (P.may page) (P.cell_count page) (view_of seat.old).seen key.0 k
        → Tells (P.facts page) k word e → result ≡ e.number }
    ensures known { Known P.may (view_of seat.new) }
{
    let entry = read_entry(board, seat, key, word);
    entry.number
}

/// The level of a known key, 3 or 4. It is 4 where the pass knows that the key has it.
pub fn read_level<P: Rows>(board: &Board<P>, seat: &mut Seat<P>, key: Handle) -> u8
    requires own { IsSeatOf board.now seat.old }
    requires known { let page = page_of board.now in (k : KeySpec)
        × Knows (P.may page) (P.cell_count page) (view_of seat.old).seen (P.facts page) key.0 k }
    ensures own { IsSame seat.old seat.new × IsSeatOf board.now seat.new }
    ensures view { Grown (view_of seat.old) (view_of seat.new)
        × ((view_of seat.new).kept ≡ (view_of seat.old).kept) }
    ensures level { let page = page_of board.now in (k : KeySpec)
        → Names (P.may page) (P.cell_count page) (view_of seat.old).seen key.0 k
        → KnowsLevel (P.may page) (P.cell_count page) (view_of seat.new).seen result k }
    ensures three_or_four { (result ≡ 3) ⊎ (result ≡ 4) }
    ensures loaded { let page = page_of board.now in (k : KeySpec)
        → Names (P.may page) (P.cell_count page) (view_of seat.old).seen key.0 k
        → KnowsLevel (P.may page) (P.cell_count page) (view_of seat.old).seen 4 k
        → result ≡ 4 }
    ensures known { Known P.may (view_of seat.new) }
{
    let place = board.row_place(key.0, 7);
    let stood = board.look(seat, place);
    if stood == 0 { 3 } else { 4 }
}
