//! The levels of members.
ghost use Rattle.std.specs.Prelude.{◌≡◌, ℕ, ◌+◌, ◌<◌, ◌≤◌, length, slice_get, Some};
ghost use Rattle.clr_base.specs.declared.ids.Handle.{Handle as HandleSpec};
ghost use Rattle.word_board.specs.Boards.{IsSeatOf, IsSame, page_of, view_of};
ghost use Rattle.type_record.specs.Words.{row_word};
ghost use Rattle.key_rows.specs.Rows.{WordSet};
ghost use Rattle.key_publish.specs.Moving.{Moved};
ghost use Rattle.key_publish.specs.declared.plan.Member.{Member as MemberSpec};
ghost use Rattle.key_publish.specs.Published.{CanRaise, Raised};

use crate::plan::Member;
use clr_base::Handle;
use key_rows::{Rows, fill};
use node_set::Cell;
use type_record::Entry;
use word_board::{Board, Seat};

/// Sets the word of a level of a member.
pub(crate) fn raise_one<P: Rows>(
    board: &Board<P>,
    seat: &mut Seat<P>,
    handles: &[Handle],
    member: &Member,
    level: u32,
)
    requires own { IsSeatOf board.now seat.old }
    requires level { (0 < level) × (level ≤ 4) }
    requires may { let page = page_of board.now in let seen = (view_of seat.old).seen in
        CanRaise (P.cell_count page) seen (P.facts page) (P.granted page seen) handles.now level member.now }
    ensures own { IsSame seat.old seat.new × IsSeatOf board.now seat.new }
    ensures moved { Moved (P.cell_count (page_of board.now)) (view_of seat.old) (view_of seat.new) }
    ensures set { (h : HandleSpec) → slice_get handles.now member.now.part ≡ Some h
        → WordSet (P.cell_count (page_of board.now)) (view_of seat.new).seen h.0 (3 + level) (row_word level 0) }
{
    let key = handles[member.part as usize];
    let entry = Entry {
        number: level as u64,
        key: None,
    };
    fill(board, seat, key, Cell(key.0), 3 + level as u64, entry);
}

/// Sets the words of a level of all members: one walk.
pub(crate) fn raise_all<P: Rows>(
    board: &Board<P>,
    seat: &mut Seat<P>,
    handles: &[Handle],
    members: &[Member],
    level: u32,
)
    requires own { IsSeatOf board.now seat.old }
    requires level { (0 < level) × (level ≤ 4) }
    requires may { let page = page_of board.now in let seen = (view_of seat.old).seen in
        (j : ℕ) (m : MemberSpec) → slice_get members.now j ≡ Some m
        → CanRaise (P.cell_count page) seen (P.facts page) (P.granted page seen) handles.now level m }
    ensures own { IsSame seat.old seat.new × IsSeatOf board.now seat.new }
    ensures moved { Moved (P.cell_count (page_of board.now)) (view_of seat.old) (view_of seat.new) }
    ensures set { Raised (P.cell_count (page_of board.now)) (view_of seat.new).seen handles.now members.now
        (length members.now) level }
{
    for member in members {
        raise_one(board, seat, handles, member, level);
    }
}
