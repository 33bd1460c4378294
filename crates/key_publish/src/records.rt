//! The records of members.
ghost use Rattle.std.specs.Prelude.{◌≡◌, ℕ, ◌/◌, ◌%◌, ◌<◌, ◌≤◌, ◌⊎◌, length, slice_get, Some, IfOk, IfErr};
ghost use Rattle.clr_base.specs.declared.ids.Handle.{Handle as HandleSpec};
ghost use Rattle.word_board.specs.Boards.{IsSeatOf, IsSame, page_of, view_of};
ghost use Rattle.node_set.specs.Keys.{Key, Spells};
ghost use Rattle.key_rows.specs.Facts.{HasRow, IsOtherWord};
ghost use Rattle.key_rows.specs.Rows.{IsRowOf};
ghost use Rattle.key_publish.specs.Moving.{Moved};
ghost use Rattle.key_publish.specs.Plans.{IsInHandles, HasHandle, Shown, MemberFits};
ghost use Rattle.key_publish.specs.declared.plan.Member.{Member as MemberSpec};
ghost use Rattle.key_publish.specs.Published.{HasWord, HasRecord, IsRowLeft, InEachCellOther};
ghost use Rattle.node_set.specs.declared.node.Node.TheVariants.{Row};

use crate::plan::Member;
use clr_base::{Handle, TableFull};
use key_rows::{Rows, fill, put_row};
use node_set::Cell;
use type_record::Entry;
use word_board::{Board, Seat};

// The entry with the handle of its part.
fn in_handles(planned: Entry<u32>, handles: &[Handle]) -> Entry<Handle>
    requires { HasHandle handles.now planned.key }
    ensures { IsInHandles handles.now planned result }
{
    let key = match planned.key {
        None => None,
        Some(part) => Some(handles[part as usize]),
    };
    Entry {
        number: planned.number,
        key,
    }
}

// The cell that has the row of a word, if the cell before has the row of the word before.
fn next_cell<P: Rows>(
    board: &Board<P>,
    seat: &mut Seat<P>,
    key: Handle,
    cell: Cell,
    word: usize,
) -> Result<Cell, TableFull>
    requires own { IsSeatOf board.now seat.old }
    requires few { word < 137438953472 }
    requires before { 0 < word % 32
        → IsRowOf (P.cell_count (page_of board.now)) (view_of seat.old).seen key.0 (word / 32) cell.0 }
    requires may { let page = page_of board.now in let seen = (view_of seat.old).seen in (k : Key)
        × Spells (P.cell_count page) seen key.0 k
        × P.granted page seen k × HasRow (P.facts page) k (word / 32) }
    ensures own { IsSame seat.old seat.new × IsSeatOf board.now seat.new }
    ensures moved { Moved (P.cell_count (page_of board.now)) (view_of seat.old) (view_of seat.new) }
    ensures row { IfOk result (λ c.
        IsRowOf (P.cell_count (page_of board.now)) (view_of seat.new).seen key.0 (word / 32) c.0) }
    ensures left { IfErr result (λ _. (0 < word / 32)
        × InEachCellOther (P.cell_count (page_of board.now)) (view_of seat.new).seen (Row key (word / 32))) }
{
    if word % 32 > 0 {
        return Ok(cell);
    }
    put_row(board, seat, key, (word / 32) as u32)
}

// Sets one word of a member's record, if it isn't a level word.
fn set_word<P: Rows>(
    board: &Board<P>,
    seat: &mut Seat<P>,
    handles: &[Handle],
    member: &Member,
    cell: Cell,
    word: usize,
)
    requires own { IsSeatOf board.now seat.old }
    requires row { (h : HandleSpec) → slice_get handles.now member.now.part ≡ Some h
        → IsRowOf (P.cell_count (page_of board.now)) (view_of seat.old).seen h.0 (word / 32) cell.0 }
    requires fits { let page = page_of board.now in let seen = (view_of seat.old).seen in (k : Key)
        × P.granted page seen k
        × MemberFits (Shown (P.cell_count page) seen handles.now) (P.facts page) member.now k }
    requires inside { word < length member.now.record }
    ensures own { IsSame seat.old seat.new × IsSeatOf board.now seat.new }
    ensures moved { Moved (P.cell_count (page_of board.now)) (view_of seat.old) (view_of seat.new) }
    ensures set { IsOtherWord word → HasWord (P.cell_count (page_of board.now)) (view_of seat.new).seen handles.now member.now word }
{
    if 4 <= word && word < 8 {
        return;
    }
    let key = handles[member.part as usize];
    let entry = in_handles(member.record.as_slice()[word], handles);
    fill(board, seat, key, cell, word as u64, entry);
}

// Sets the words of a member's record, its level words aside. The nodes of its further rows come before their words.
fn set_record<P: Rows>(
    board: &Board<P>,
    seat: &mut Seat<P>,
    handles: &[Handle],
    member: &Member,
) -> Result<(), TableFull>
    requires own { IsSeatOf board.now seat.old }
    requires fits { let page = page_of board.now in let seen = (view_of seat.old).seen in (k : Key)
        × P.granted page seen k
        × MemberFits (Shown (P.cell_count page) seen handles.now) (P.facts page) member.now k }
    ensures own { IsSame seat.old seat.new × IsSeatOf board.now seat.new }
    ensures moved { Moved (P.cell_count (page_of board.now)) (view_of seat.old) (view_of seat.new) }
    ensures set { IfOk result (λ _. let page = page_of board.now in
        HasRecord (P.cell_count page) (view_of seat.new).seen (P.facts page)
        (Shown (P.cell_count page) (view_of seat.old).seen handles.now) handles.now member.now) }
    ensures left { IfErr result (λ _.
        IsRowLeft (P.cell_count (page_of board.now)) (view_of seat.new).seen handles.now member.now) }
{
    let key = handles[member.part as usize];
    let mut cell = Cell(key.0);
    for word in 0..member.record.len() {
        cell = next_cell(board, seat, key, cell, word)?;
        set_word(board, seat, handles, member, cell, word);
    }
    Ok(())
}

/// Sets the words of the records of all members, the level words aside.
pub(crate) fn set_records<P: Rows>(
    board: &Board<P>,
    seat: &mut Seat<P>,
    handles: &[Handle],
    members: &[Member],
) -> Result<(), TableFull>
    requires own { IsSeatOf board.now seat.old }
    requires fits { let page = page_of board.now in let seen = (view_of seat.old).seen in
        (j : ℕ) (m : MemberSpec) → slice_get members.now j ≡ Some m
        → (k : Key) × P.granted page seen k
        × MemberFits (Shown (P.cell_count page) seen handles.now) (P.facts page) m k }
    ensures own { IsSame seat.old seat.new × IsSeatOf board.now seat.new }
    ensures moved { Moved (P.cell_count (page_of board.now)) (view_of seat.old) (view_of seat.new) }
    ensures set { IfOk result (λ _. let page = page_of board.now in
        (j : ℕ) (m : MemberSpec) → slice_get members.now j ≡ Some m
        → HasRecord (P.cell_count page) (view_of seat.new).seen (P.facts page)
        (Shown (P.cell_count page) (view_of seat.old).seen handles.now) handles.now m) }
    ensures left { IfErr result (λ _. (j : ℕ) × (m : MemberSpec) × (slice_get members.now j ≡ Some m)
        × IsRowLeft (P.cell_count (page_of board.now)) (view_of seat.new).seen handles.now m) }
{
    for member in members {
        set_record(board, seat, handles, member)?;
    }
    Ok(())
}
