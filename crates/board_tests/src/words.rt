//! Tests of words that are set once, and of the numbers of passes.
ghost use Rattle.std.specs.Prelude.{◌<◌};
ghost use Rattle.word_board.specs.Boards.{IsSeatOf};

use crate::pages::Anything;
use std::test::Fail;
use std::thread::{Threads, join};
use word_board::{Board, Page, Seat};

const PLACES: u32 = 134;

// The numbers 1 to 4,095 are drawn in turn, and then none is.
fn draws_each_once(board: &Board<Anything>, seat: &mut Seat<Anything>) -> bool
    requires { IsSeatOf board.now seat.old }
{
    for i in 0..4095u32 {
        if board.draw(seat) != Some(i + 1) {
            return false;
        }
    }
    board.draw(seat).is_none() && board.draw(seat).is_none()
}

#[test]
fn each_number_is_drawn_once(rt: HostRuntime) -> Result<(), Fail> {
    let (board, mut seat) = Board::open(rt.alloc(), Anything, PLACES)?;
    assert!(rt; draws_each_once(&board, &mut seat));
    Ok(())
}

// The numbers that are drawn before and after one is lost.
fn drawn_round_a_loss(board: &Board<Anything>, seat: &mut Seat<Anything>) -> [Option<u32>; 2]
    requires { IsSeatOf board.now seat.old }
{
    let first = board.draw(seat);
    if first.is_some() {
        board.lose(seat);
    }
    [first, board.draw(seat)]
}

#[test]
fn a_lost_number_is_not_drawn_again(rt: HostRuntime) -> Result<(), Fail> {
    let (board, mut seat) = Board::open(rt.alloc(), Anything, PLACES)?;
    assert!(rt; drawn_round_a_loss(&board, &mut seat) == [Some(1), Some(2)]);
    Ok(())
}

// What a word of a row and a word of the journal answer as they are looked at and set.
fn answers(board: &Board<Anything>, seat: &mut Seat<Anything>) -> [u64; 7]
    requires { IsSeatOf board.now seat.old }
{
    let place = board.row_place(0, 1);
    let before = board.look(seat, place);
    let set = board.set(seat, place, 7);
    let again = board.set(seat, place, 9);
    let settled = board.settle(seat, place, 9);
    let last = board.journal_place(1);
    let own = board.settle(seat, last, 9);
    board.recall(seat);
    [
        before,
        set,
        again,
        settled,
        board.look(seat, place),
        own,
        last as u64,
    ]
}

#[test]
fn a_word_is_set_once(rt: HostRuntime) -> Result<(), Fail> {
    let (board, mut seat) = Board::open(rt.alloc(), Anything, PLACES)?;
    assert!(rt; answers(&board, &mut seat) == [0, 0, 7, 7, 7, 9, 133]);
    Ok(())
}

fn set_one(board: &Board<Anything>, mut seat: Seat<Anything>, word: u64) -> (u64, Seat<Anything>)
    requires own { IsSeatOf board.now seat }
    requires word { 0 < word }
    ensures { IsSeatOf board.now result.1 }
{
    let old = board.set(&mut seat, 5, word);
    (old, seat)
}

// Two threads set one place to 7 and 9. The pass that is left, and what each set answered.
fn set_both<R: Threads + Sync>(
    rt: &R,
    board: &Board<Anything>,
    one: Seat<Anything>,
    two: Seat<Anything>,
) -> (Seat<Anything>, u64, u64)
    requires { IsSeatOf board.now one × IsSeatOf board.now two }
    ensures { IsSeatOf board.now result.0 }
{
    let ((a, mut seat), (b, other)) = join(
        rt,
        || -> (u64, Seat<Anything>)
            requires { IsSeatOf board.now one }
            ensures { IsSeatOf board.entry.now result.1 }
        { set_one(board, one, 7) },
        || -> (u64, Seat<Anything>)
            requires { IsSeatOf board.now two }
            ensures { IsSeatOf board.entry.now result.1 }
        { set_one(board, two, 9) },
    );
    board.join(&mut seat, other);
    (seat, a, b)
}

// The word that one of two threads set stands, and the other was told it.
fn one_set(words: &[u64], a: u64, b: u64) -> bool {
    let word = if a == 0 { 7 } else { 9 };
    let told = (a == 0 && b == 7) || (a == 9 && b == 0);
    let rest = words.iter().filter(|&found| *found != 0).count();
    told && words.len() == 134 && words.get(5) == Some(&word) && rest == 1
}

#[test]
fn one_of_two_threads_sets_and_both_see(rt: HostRuntime) -> Result<(), Fail> {
    let (board, mut seat) = Board::open(rt.alloc(), Anything, PLACES)?;
    if board.draw(&mut seat).is_none() {
        panic!(rt; "no number");
    }
    let other = board.split(rt.alloc(), &mut seat)?;
    let (seat, a, b) = set_both(&rt, &board, seat, other);
    let Ok(words) = board.close(rt.alloc(), seat) else {
        panic!(rt; "want of memory");
    };
    assert!(rt; one_set(words.as_slice(), a, b));
    Ok(())
}

fn sends<T: Send>(_value: &T) {}

fn shares<T: Sync>(_value: &T) {}

// A board may be shared, and it and its seats may be moved, wherever its page may.
fn crosses<P: Page + Send + Sync>(board: &Board<P>, seat: &Seat<P>) {
    sends(board);
    shares(board);
    sends(seat);
}

#[test]
fn a_board_crosses_threads(rt: HostRuntime) -> Result<(), Fail> {
    let (board, seat) = Board::open(rt.alloc(), Anything, PLACES)?;
    crosses(&board, &seat);
    Ok(())
}
