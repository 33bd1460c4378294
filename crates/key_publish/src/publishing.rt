//! Publishing the closure of a key.
ghost use Rattle.std.specs.Prelude.{◌≡◌, ℕ, ◌≤◌, [], length, vec_capacity, Contains, IfOk, IfErr};
ghost use Rattle.word_board.specs.Boards.{IsSeatOf, IsSame, page_of, view_of};
ghost use Rattle.node_set.specs.Keys.{Key};
ghost use Rattle.key_publish.specs.Moving.{Moved};
ghost use Rattle.key_publish.specs.Plans.{Denotes, Spelled, PlanFits};
ghost use Rattle.key_publish.specs.Published.{Laid, Published, IsLeft};

use crate::laying::lay;
use crate::levels::{raise_all, raise_one};
use crate::plan::{Member, Part};
use clr_base::{Handle, TableFull};
use key_rows::Rows;
use word_board::{Board, Seat};

// Sets the levels 1 to 3 of each member, one walk for each level, and then level 4 of the key that is asked for.
fn raise<P: Rows>(
    board: &Board<P>,
    seat: &mut Seat<P>,
    parts: &[Part],
    members: &[Member],
    asked: u32,
    handles: &[Handle],
) -> Handle
    requires own { IsSeatOf board.now seat.old }
    requires laid { let page = page_of board.now in
        Laid (P.cell_count page) (view_of seat.old).seen (P.facts page) parts.now handles.now members.now }
    requires plan { let page = page_of board.now in (root : Key)
        × PlanFits (P.facts page) parts.now members.now asked root
        × ((k : Key) → Contains ((P.facts page).closure root) k → P.granted page (view_of seat.old).seen k) }
    ensures own { IsSame seat.old seat.new × IsSeatOf board.now seat.new }
    ensures moved { Moved (P.cell_count (page_of board.now)) (view_of seat.old) (view_of seat.new) }
    ensures published { let page = page_of board.now in
        (root : Key) → PlanFits (P.facts page) parts.now members.now asked root
        → Published (P.cell_count page) (view_of seat.new).seen (P.facts page) result.0 root }
{
    raise_all(board, seat, handles, members, 1);
    raise_all(board, seat, handles, members, 2);
    raise_all(board, seat, handles, members, 3);
    let member = &members[asked as usize];
    raise_one(board, seat, handles, member, 4);
    handles[member.part as usize]
}

/// Publishes the closure of a key that may have its records set: the nodes of all parts, each member's record,
/// the levels 1 to 3 of each member, one walk for each level, and level 4 of the key that is asked for,
/// whose handle it answers. `handles` then has the handle of each part. It takes no memory, since there is room for them.
///
/// TableFull comes where each cell was loaded as set to another node than one that is left to put.
/// What was set until then may stand.
pub fn publish<P: Rows>(
    board: &Board<P>,
    seat: &mut Seat<P>,
    parts: &[Part],
    members: &[Member],
    asked: u32,
    handles: &mut Vec<Handle>,
) -> Result<Handle, TableFull>
    requires own { IsSeatOf board.now seat.old }
    requires room { (handles.old.items ≡ []) × (length parts.now ≤ vec_capacity handles.old) }
    requires plan { let page = page_of board.now in (root : Key)
        × PlanFits (P.facts page) parts.now members.now asked root
        × ((k : Key) → Contains ((P.facts page).closure root) k → P.granted page (view_of seat.old).seen k) }
    requires granted { (i : ℕ) (k : Key) → Denotes parts.now i k
        → P.part_granted (page_of board.now) (view_of seat.old).seen k }
    ensures own { IsSame seat.old seat.new × IsSeatOf board.now seat.new }
    ensures moved { Moved (P.cell_count (page_of board.now)) (view_of seat.old) (view_of seat.new) }
    ensures published { IfOk result (λ h. let page = page_of board.now in
        (root : Key) → PlanFits (P.facts page) parts.now members.now asked root
        → Published (P.cell_count page) (view_of seat.new).seen (P.facts page) h.0 root) }
    ensures handles { IfOk result (λ _. (length handles.new.items ≡ length parts.now)
        × Spelled (P.cell_count (page_of board.now)) (view_of seat.new).seen parts.now handles.new.items) }
    ensures left { IfErr result (λ _. let page = page_of board.now in
        (root : Key) → PlanFits (P.facts page) parts.now members.now asked root
        → IsLeft (P.cell_count page) (view_of seat.new).seen (P.facts page) parts.now root) }
{
    lay(board, seat, parts, members, asked, handles)?;
    let handle = raise(board, seat, parts, members, asked, handles.as_slice());
    Ok(handle)
}
