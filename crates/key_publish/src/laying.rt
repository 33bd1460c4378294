//! The nodes and the records of a closure.
ghost use Rattle.std.specs.Prelude.{◌≡◌, ℕ, ◌≤◌, [], length, vec_capacity, Contains, IfOk, IfErr};
ghost use Rattle.word_board.specs.Boards.{IsSeatOf, IsSame, page_of, view_of};
ghost use Rattle.node_set.specs.Keys.{Key};
ghost use Rattle.key_publish.specs.Moving.{Moved};
ghost use Rattle.key_publish.specs.Plans.{Denotes, PlanFits};
ghost use Rattle.key_publish.specs.Published.{Laid, IsLeft};

use crate::nodes::put_parts;
use crate::plan::{Member, Part};
use crate::records::set_records;
use clr_base::{Handle, TableFull};
use key_rows::Rows;
use word_board::{Board, Seat};

/// Sets the nodes of all parts, and the records of all members but for their level words.
pub(crate) fn lay<P: Rows>(
    board: &Board<P>,
    seat: &mut Seat<P>,
    parts: &[Part],
    members: &[Member],
    asked: u32,
    handles: &mut Vec<Handle>,
) -> Result<(), TableFull>
    requires own { IsSeatOf board.now seat.old }
    requires room { (handles.old.items ≡ []) × (length parts.now ≤ vec_capacity handles.old) }
    requires plan { let page = page_of board.now in (root : Key)
        × PlanFits (P.facts page) parts.now members.now asked root
        × ((k : Key) → Contains ((P.facts page).closure root) k → P.granted page (view_of seat.old).seen k) }
    requires granted { (i : ℕ) (k : Key) → Denotes parts.now i k
        → P.part_granted (page_of board.now) (view_of seat.old).seen k }
    ensures own { IsSame seat.old seat.new × IsSeatOf board.now seat.new }
    ensures moved { Moved (P.cell_count (page_of board.now)) (view_of seat.old) (view_of seat.new) }
    ensures laid { IfOk result (λ _. let page = page_of board.now in
        Laid (P.cell_count page) (view_of seat.new).seen (P.facts page) parts.now handles.new.items members.now) }
    ensures left { IfErr result (λ _. let page = page_of board.now in
        (root : Key) → PlanFits (P.facts page) parts.now members.now asked root
        → IsLeft (P.cell_count page) (view_of seat.new).seen (P.facts page) parts.now root) }
{
    put_parts(board, seat, parts, handles)?;
    set_records(board, seat, handles.as_slice(), members)
}
