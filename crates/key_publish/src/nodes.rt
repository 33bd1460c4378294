//! The nodes of the parts of keys.
ghost use Rattle.std.specs.Prelude.{◌≡◌, ℕ, ◌+◌, ◌<◌, ◌≤◌, [], length, vec_len, vec_capacity, IfOk, IfErr};
ghost use Rattle.word_board.specs.Boards.{IsSeatOf, IsSame, page_of, view_of};
ghost use Rattle.node_set.specs.Keys.{Key, Spells};
ghost use Rattle.key_publish.specs.Moving.{Moved};
ghost use Rattle.key_publish.specs.Plans.{Denotes, IsPart, IsBehind, IsNodeOf, Spelled};
ghost use Rattle.key_publish.specs.Published.{IsPartLeft};

use crate::plan::Part;
use clr_base::{Handle, TableFull};
use key_rows::Rows;
use node_set::{Node, put};
use word_board::{Board, Seat};

// The node of a part, by the handles of the parts before it.
fn node_of(part: &Part, handles: &[Handle]) -> Node
    requires { IsBehind (length handles.now) part.now }
    ensures { IsNodeOf handles.now part.now result }
{
    match part {
        Part::Head { definition } => Node::Head {
            definition: *definition,
        },
        Part::Argument { of, argument } => Node::Argument {
            of: handles[*of as usize],
            argument: handles[*argument as usize],
        },
        Part::Array { element } => Node::Array {
            element: handles[*element as usize],
        },
        Part::Method { method, owner } => Node::Method {
            method: *method,
            owner: handles[*owner as usize],
        },
    }
}

// Puts the node of the next part.
fn put_part<P: Rows>(
    board: &Board<P>,
    seat: &mut Seat<P>,
    parts: &[Part],
    handles: &[Handle],
) -> Result<Handle, TableFull>
    requires own { IsSeatOf board.now seat.old }
    requires next { length handles.now < length parts.now }
    requires part { IsPart parts.now (length handles.now) }
    requires granted { (k : Key) → Denotes parts.now (length handles.now) k
        → P.part_granted (page_of board.now) (view_of seat.old).seen k }
    requires spelled { Spelled (P.cell_count (page_of board.now)) (view_of seat.old).seen parts.now handles.now }
    ensures own { IsSame seat.old seat.new × IsSeatOf board.now seat.new }
    ensures moved { Moved (P.cell_count (page_of board.now)) (view_of seat.old) (view_of seat.new) }
    ensures spelled { IfOk result (λ h. (k : Key) → Denotes parts.now (length handles.now) k
        → Spells (P.cell_count (page_of board.now)) (view_of seat.new).seen h.0 k) }
    ensures left { IfErr result (λ _. IsPartLeft (P.cell_count (page_of board.now)) (view_of seat.new).seen parts.now) }
{
    let node = node_of(&parts[handles.len()], handles);
    let cell = put(board, seat, node)?;
    Ok(Handle(cell.0))
}

/// Puts the nodes of parts, each after those that it names.
pub(crate) fn put_parts<P: Rows>(
    board: &Board<P>,
    seat: &mut Seat<P>,
    parts: &[Part],
    handles: &mut Vec<Handle>,
) -> Result<(), TableFull>
    requires own { IsSeatOf board.now seat.old }
    requires empty { (handles.old.items ≡ []) × (length parts.now ≤ vec_capacity handles.old) }
    requires parts { (i : ℕ) → i < length parts.now → IsPart parts.now i }
    requires granted { (i : ℕ) (k : Key) → Denotes parts.now i k
        → P.part_granted (page_of board.now) (view_of seat.old).seen k }
    ensures own { IsSame seat.old seat.new × IsSeatOf board.now seat.new }
    ensures moved { Moved (P.cell_count (page_of board.now)) (view_of seat.old) (view_of seat.new) }
    ensures long { IfOk result (λ _. length handles.new.items ≡ length parts.now) }
    ensures spelled { IfOk result (λ _.
        Spelled (P.cell_count (page_of board.now)) (view_of seat.new).seen parts.now handles.new.items) }
    ensures left { IfErr result (λ _. IsPartLeft (P.cell_count (page_of board.now)) (view_of seat.new).seen parts.now) }
{
    for _ in 0..parts.len() {
        let handle = put_part(board, seat, parts, handles.as_slice())?;
        handles.push_reserved(handle);
    }
    Ok(())
}
