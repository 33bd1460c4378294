//! Tests of threads that add to one journal.
ghost use Rattle.std.specs.Prelude.{◌≡◌, ◌+◌, ◌<◌, IfSome};
ghost use Rattle.word_board.specs.Views.{number_of, Grown};
ghost use Rattle.word_board.specs.Boards.{IsSeatOf, view_of};
ghost use Rattle.load_events.specs.Events.{caller_of, IsNarrow};
ghost use Rattle.load_history.specs.Journal.{HasFront};

use crate::pages::AnyEvent;
use clr_base::SigId;
use load_events::Event;
use load_history::add;
use std::alloc::Global;
use std::test::Fail;
use std::thread::{Threads, join};
use word_board::{Board, Seat};

// Each of eight threads adds so many events, which fill the journal.
const EVENTS: u32 = 100;

// A seat with the number of its pass.
#[derive(Drop)]
struct Pass {
    seat: Seat<AnyEvent>,
    number: u32,
    ghost own: { number_of (view_of seat) ≡ number },
    ghost low: { number < 4096 },
}

type Two = (Pass, Pass);

// Adds the event of a pass at a place behind those that it has seen: whether this call set it.
fn add_one(
    board: &Board<AnyEvent>,
    seat: &mut Seat<AnyEvent>,
    place: u32,
    event: Event,
) -> Option<bool>
    requires own { IsSeatOf board.now seat.old }
    requires caller { number_of (view_of seat.old) ≡ caller_of event }
    requires narrow { IsNarrow event }
    requires front { HasFront 1 (view_of seat.old).seen place }
    ensures own { IsSeatOf board.now seat.new }
    ensures view { Grown (view_of seat.old) (view_of seat.new) }
    ensures front { IfSome result (λ _. HasFront 1 (view_of seat.new).seen (place + 1)) }
{
    let stood = add(board, seat, place, event).ok()?;
    Some(stood.is_none())
}

// Adds the events of a pass in turn, each at the first place where none stands.
fn add_all(board: &Board<AnyEvent>, pass: Pass) -> Seat<AnyEvent>
    requires { IsSeatOf board.now pass.seat }
    ensures { IsSeatOf board.now result }
{
    let Pass { mut seat, number } = pass;
    let mut sig = 0;
    for place in 0..800u32 {
        if sig == EVENTS {
            return seat;
        }
        let event = Event::Find {
            caller: number,
            context: None,
            sig: SigId(sig),
            found: true,
        };
        match add_one(board, &mut seat, place, event) {
            Some(true) => sig += 1,
            Some(false) => {}
            None => return seat,
        }
    }
    seat
}

// One pass takes the other in.
fn merged(board: &Board<AnyEvent>, seats: (Seat<AnyEvent>, Seat<AnyEvent>)) -> Seat<AnyEvent>
    requires { IsSeatOf board.now seats.0 × IsSeatOf board.now seats.1 }
    ensures { IsSeatOf board.now result }
{
    let (mut into, gone) = seats;
    board.join(&mut into, gone);
    into
}

// A pass out of another, which goes on.
fn forked(alloc: Global, board: &Board<AnyEvent>, pass: Pass) -> Option<Two>
    requires { IsSeatOf board.now pass.seat }
    ensures { IfSome result (λ s. IsSeatOf board.now s.0.seat × IsSeatOf board.now s.1.seat) }
{
    let Pass { mut seat, number } = pass;
    let drawn = board.draw(&mut seat)?;
    match board.split(alloc, &mut seat) {
        Ok(other) => Some((
            Pass { seat, number },
            Pass {
                seat: other,
                number: drawn,
            },
        )),
        Err(_) => None,
    }
}

fn run_two<R: Threads + Sync>(
    rt: &R,
    alloc: Global,
    board: &Board<AnyEvent>,
    pass: Pass,
) -> Option<Seat<AnyEvent>>
    requires { IsSeatOf board.now pass.seat }
    ensures { IfSome result (λ s. IsSeatOf board.now s) }
{
    let (a, b) = forked(alloc, board, pass)?;
    let both = join(
        rt,
        || -> Seat<AnyEvent>
            requires { IsSeatOf board.now a.seat }
            ensures { IsSeatOf board.entry.now result }
        { add_all(board, a) },
        || -> Seat<AnyEvent>
            requires { IsSeatOf board.now b.seat }
            ensures { IsSeatOf board.entry.now result }
        { add_all(board, b) },
    );
    Some(merged(board, both))
}

fn run_four<R: Threads + Sync>(
    rt: &R,
    alloc: Global,
    board: &Board<AnyEvent>,
    pass: Pass,
) -> Option<Seat<AnyEvent>>
    requires { IsSeatOf board.now pass.seat }
    ensures { IfSome result (λ s. IsSeatOf board.now s) }
{
    let (a, b) = forked(alloc, board, pass)?;
    let (a, b) = join(
        rt,
        || -> Option<Seat<AnyEvent>>
            requires { IsSeatOf board.now a.seat }
            ensures { IfSome result (λ s. IsSeatOf board.entry.now s) }
        { run_two(rt, alloc, board, a) },
        || -> Option<Seat<AnyEvent>>
            requires { IsSeatOf board.now b.seat }
            ensures { IfSome result (λ s. IsSeatOf board.entry.now s) }
        { run_two(rt, alloc, board, b) },
    );
    Some(merged(board, (a?, b?)))
}

fn run_eight<R: Threads + Sync>(
    rt: &R,
    alloc: Global,
    board: &Board<AnyEvent>,
    pass: Pass,
) -> Option<Seat<AnyEvent>>
    requires { IsSeatOf board.now pass.seat }
    ensures { IfSome result (λ s. IsSeatOf board.now s) }
{
    let (a, b) = forked(alloc, board, pass)?;
    let (a, b) = join(
        rt,
        || -> Option<Seat<AnyEvent>>
            requires { IsSeatOf board.now a.seat }
            ensures { IfSome result (λ s. IsSeatOf board.entry.now s) }
        { run_four(rt, alloc, board, a) },
        || -> Option<Seat<AnyEvent>>
            requires { IsSeatOf board.now b.seat }
            ensures { IfSome result (λ s. IsSeatOf board.entry.now s) }
        { run_four(rt, alloc, board, b) },
    );
    Some(merged(board, (a?, b?)))
}

// The journal has the events of each of the callers 0 to 7, each caller's in order, and no others.
fn stand_in_order(words: &[u64]) -> bool {
    let mut next = [0u32; 8];
    for word in words {
        let Some(
            Event::Find {
                caller,
                context: None,
                sig,
                found: true,
            },
        ) = Event::read(*word)
        else {
            return false;
        };
        let Some(count) = next.get_mut(caller as usize) else {
            return false;
        };
        if *count != sig.0 || *count == EVENTS {
            return false;
        }
        *count += 1;
    }
    next == [EVENTS; 8]
}

#[test]
fn eight_threads_fill_one_journal(rt: HostRuntime) -> Result<(), Fail> {
    let (board, seat) = Board::open(rt.alloc(), AnyEvent, 833)?;
    let first = Pass { seat, number: 0 };
    let Some(seat) = run_eight(&rt, rt.alloc(), &board, first) else {
        panic!(rt; "no number");
    };
    let Ok(words) = board.close(rt.alloc(), seat) else {
        panic!(rt; "want of memory");
    };
    assert!(rt; words.len() == 833 && stand_in_order(&words.as_slice()[33..]));
    Ok(())
}
