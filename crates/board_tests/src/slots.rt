//! Tests of slots: a layout that is full, a word of a dictionary that is filled, and threads that take slots of one layout.
ghost use Rattle.std.specs.Prelude.{◌≡◌, ◌<◌, IfSome, vec_len};
ghost use Rattle.word_board.specs.Views.{Grown};
ghost use Rattle.word_board.specs.Boards.{IsSeatOf, view_of};
ghost use Rattle.node_set.specs.Keys.{Stands};

use crate::pages::SlotsAlone;
use clr_base::{DefId, Handle, SigId, TableFull};
use dict_slots::{fill, read, seek_slot, segment, slot_of};
use node_set::{Node, put};
use std::alloc::Global;
use std::test::Fail;
use std::thread::{Threads, join};
use word_board::{Board, Seat};

// Puts the key of the layout and the dictionary: the head of definition 0.
fn put_key(board: &Board<SlotsAlone>, seat: &mut Seat<SlotsAlone>) -> Option<Handle>
    requires own { IsSeatOf board.now seat.old }
    ensures own { IsSeatOf board.now seat.new }
    ensures key { IfSome result (λ h. Stands 128 (view_of seat.new).seen h.0 (Node.Head (record { 0 = 0 }))) }
{
    let node = Node::Head {
        definition: DefId(0),
    };
    let cell = put(board, seat, node).ok()?;
    Some(Handle(cell.0))
}

// The slot of a signature in the layout of the key.
fn take(
    board: &Board<SlotsAlone>,
    seat: &mut Seat<SlotsAlone>,
    key: Handle,
    sig: u32,
) -> Result<Option<u32>, TableFull>
    requires own { IsSeatOf board.now seat.old }
    requires key { Stands 128 (view_of seat.old).seen key.0 (Node.Head (record { 0 = 0 })) }
    ensures own { IsSeatOf board.now seat.new }
    ensures view { Grown (view_of seat.old) (view_of seat.new) }
{
    slot_of(board, seat, key, SigId(sig))
}

// All slots of a layout are taken in turn; a signature more has none, and each finds its own again.
fn fills_layout(board: &Board<SlotsAlone>, seat: &mut Seat<SlotsAlone>, key: Handle) -> bool
    requires own { IsSeatOf board.now seat.old }
    requires key { Stands 128 (view_of seat.old).seen key.0 (Node.Head (record { 0 = 0 })) }
{
    for sig in 0..2048u32 {
        if take(board, seat, key, sig) != Ok(Some(sig)) {
            return false;
        }
    }
    take(board, seat, key, 2048) == Ok(None)
        && take(board, seat, key, 33) == Ok(Some(33))
        && seek_slot(board, seat, key, SigId(2047)) == Some(2047)
        && seek_slot(board, seat, key, SigId(2048)).is_none()
        && seek_slot(board, seat, Handle(128), SigId(0)).is_none()
}

#[test]
fn a_layout_has_2048_slots(rt: HostRuntime) -> Result<(), Fail> {
    let (board, mut seat) = Board::open(rt.alloc(), SlotsAlone, 4224)?;
    let Some(key) = put_key(&board, &mut seat) else {
        panic!(rt; "no cell");
    };
    assert!(rt; fills_layout(&board, &mut seat, key));
    Ok(())
}

// What a word of the dictionary answers as it is read and filled.
fn answers(
    board: &Board<SlotsAlone>,
    seat: &mut Seat<SlotsAlone>,
    key: Handle,
) -> Result<[Option<Handle>; 4], TableFull>
    requires own { IsSeatOf board.now seat.old }
    requires key { Stands 128 (view_of seat.old).seen key.0 (Node.Head (record { 0 = 0 })) }
{
    let cell = segment(board, seat, key, 40)?;
    let before = read(board, seat, cell, 40);
    let own = fill(board, seat, cell, 40, Handle(9));
    let other = fill(board, seat, cell, 40, Handle(5));
    let after = read(board, seat, cell, 40);
    Ok([before, own, other, after])
}

#[test]
fn a_word_is_filled_once(rt: HostRuntime) -> Result<(), Fail> {
    let (board, mut seat) = Board::open(rt.alloc(), SlotsAlone, 4224)?;
    let Some(key) = put_key(&board, &mut seat) else {
        panic!(rt; "no cell");
    };
    let first = Some(Handle(9));
    assert!(rt; answers(&board, &mut seat, key) == Ok([None, None, first, first]));
    Ok(())
}

// How many signatures two threads take slots for, one from the first, the other from the last.
const SIGNATURES: u32 = 200;

// A pass, and the slot that it was told of each signature; none where some signature found none.
type Run = (Seat<SlotsAlone>, Option<Vec<u32>>);

// Takes a slot for each signature, in the order of a thread.
fn take_all(
    alloc: Global,
    board: &Board<SlotsAlone>,
    mut seat: Seat<SlotsAlone>,
    key: Handle,
    turned: bool,
) -> Run
    requires own { IsSeatOf board.now seat }
    requires key { Stands 128 (view_of seat).seen key.0 (Node.Head (record { 0 = 0 })) }
    ensures { IsSeatOf board.now result.0 }
{
    let Ok(mut told) = vec![in alloc; 0; 200] else {
        return (seat, None);
    };
    for i in 0..SIGNATURES {
        let sig = if turned { SIGNATURES - 1 - i } else { i };
        match take(board, &mut seat, key, sig) {
            Ok(Some(slot)) => told[sig as usize] = slot,
            _ => return (seat, None),
        }
    }
    (seat, Some(told))
}

// Two threads take slots of one layout for the same signatures.
fn take_both<R: Threads + Sync>(
    rt: &R,
    alloc: Global,
    board: &Board<SlotsAlone>,
    seats: (Seat<SlotsAlone>, Seat<SlotsAlone>),
    key: Handle,
) -> (Seat<SlotsAlone>, Option<Vec<u32>>, Option<Vec<u32>>)
    requires own { IsSeatOf board.now seats.0 × IsSeatOf board.now seats.1 }
    requires left { Stands 128 (view_of seats.0).seen key.0 (Node.Head (record { 0 = 0 })) }
    requires right { Stands 128 (view_of seats.1).seen key.0 (Node.Head (record { 0 = 0 })) }
    ensures { IsSeatOf board.now result.0 }
{
    let (a, b) = seats;
    let ((mut seat, one), (gone, two)) = join(
        rt,
        || -> Run
            requires own { IsSeatOf board.now a }
            requires key { Stands 128 (view_of a).seen key.0 (Node.Head (record { 0 = 0 })) }
            ensures { IsSeatOf board.entry.now result.0 }
        { take_all(alloc, board, a, key, false) },
        || -> Run
            requires own { IsSeatOf board.now b }
            requires key { Stands 128 (view_of b).seen key.0 (Node.Head (record { 0 = 0 })) }
            ensures { IsSeatOf board.entry.now result.0 }
        { take_all(alloc, board, b, key, true) },
    );
    board.join(&mut seat, gone);
    (seat, one, two)
}

// Both threads were told the same slots, and these are the first ones, each of one signature.
fn are_the_first_slots(one: Option<Vec<u32>>, two: Option<Vec<u32>>) -> bool {
    let (Some(one), Some(two)) = (one, two) else {
        return false;
    };
    let mut taken = [false; 200];
    for slot in one.iter() {
        match taken.get_mut(*slot as usize) {
            Some(found) if !*found => *found = true,
            _ => return false,
        }
    }
    one.len() == 200 && one.as_slice() == two.as_slice()
}

// Two passes that have seen the key.
fn split_with_key(
    alloc: Global,
    board: &Board<SlotsAlone>,
    mut seat: Seat<SlotsAlone>,
) -> Option<((Seat<SlotsAlone>, Seat<SlotsAlone>), Handle)>
    requires { IsSeatOf board.now seat }
    ensures own { IfSome result (λ r. IsSeatOf board.now r.0.0 × IsSeatOf board.now r.0.1) }
    ensures left { IfSome result (λ r. Stands 128 (view_of r.0.0).seen r.1.0 (Node.Head (record { 0 = 0 }))) }
    ensures right { IfSome result (λ r. Stands 128 (view_of r.0.1).seen r.1.0 (Node.Head (record { 0 = 0 }))) }
{
    let key = put_key(board, &mut seat)?;
    board.draw(&mut seat)?;
    match board.split(alloc, &mut seat) {
        Ok(other) => Some(((seat, other), key)),
        Err(_) => None,
    }
}

#[test]
fn two_threads_take_slots_of_one_layout(rt: HostRuntime) -> Result<(), Fail> {
    let (board, seat) = Board::open(rt.alloc(), SlotsAlone, 4224)?;
    let Some((seats, key)) = split_with_key(rt.alloc(), &board, seat) else {
        panic!(rt; "no number");
    };
    let (_seat, one, two) = take_both(&rt, rt.alloc(), &board, seats, key);
    assert!(rt; are_the_first_slots(one, two));
    Ok(())
}
