//! Tests of nodes: their words, and a table that is full.
ghost use Rattle.std.specs.Prelude.{◌<◌};
ghost use Rattle.word_board.specs.Boards.{IsSeatOf, IsSame};

use crate::pages::NodesAlone;
use clr_base::{DefId, Handle, TableFull};
use node_set::{Cell, Node, put, seek};
use std::test::Fail;
use word_board::{Board, Seat};

fn head(definition: u32) -> Node {
    Node::Head {
        definition: DefId(definition),
    }
}

/// Puts the head of a definition.
pub fn put_head(
    board: &Board<NodesAlone>,
    seat: &mut Seat<NodesAlone>,
    definition: u32,
) -> Result<Cell, TableFull>
    requires own { IsSeatOf board.now seat.old }
    requires narrow { definition < 16777216 }
    ensures { IsSeatOf board.now seat.new }
{
    let node = Node::Head {
        definition: DefId(definition),
    };
    put(board, seat, node)
}

// A table of four cells takes four heads and no fifth, and finds each that it has.
fn fills(board: &Board<NodesAlone>, seat: &mut Seat<NodesAlone>) -> bool
    requires { IsSeatOf board.now seat.old }
{
    let first = put_head(board, seat, 0);
    for definition in 1..4 {
        if put_head(board, seat, definition).is_err() {
            return false;
        }
    }
    first.is_ok()
        && put_head(board, seat, 4) == Err(TableFull)
        && put_head(board, seat, 0) == first
        && seek(board, seat, head(0)) == first.ok()
        && seek(board, seat, head(4)).is_none()
}

#[test]
fn a_full_table_finds_its_nodes(rt: HostRuntime) -> Result<(), Fail> {
    let (board, mut seat) = Board::open(rt.alloc(), NodesAlone { cells: 4 }, 132)?;
    assert!(rt; fills(&board, &mut seat));
    Ok(())
}

#[test]
fn words_of_nodes(rt: HostRuntime) -> Result<(), Fail> {
    let a = Handle(5);
    let b = Handle(7);
    let words = [
        head(9).word(),
        Node::Argument { of: a, argument: b }.word(),
        Node::Array { element: a }.word(),
        Node::Row { key: a, row: 1 }.word(),
        Node::LayoutSegment {
            canonical: a,
            segment: 63,
        }
        .word(),
        Node::DictionarySegment {
            exact: a,
            segment: 0,
        }
        .word(),
    ];
    assert!(rt; words == [0x91, 0x7000_0052, 0x53, 0x1000_0055, 0x3_f000_0056, 0x57]);
    Ok(())
}

#[test]
fn words_that_are_read(rt: HostRuntime) -> Result<(), Fail> {
    let row = Node::Row {
        key: Handle(5),
        row: 1,
    };
    let read = Node::read(0x1000_0055) == Some(row);
    let spare = Node::read(0x1000_0053).is_none();
    let untagged = Node::read(0x50).is_none();
    assert!(rt; read && spare && untagged);
    Ok(())
}
