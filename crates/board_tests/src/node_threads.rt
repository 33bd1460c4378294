//! Tests of threads that put the same nodes.
ghost use Rattle.std.specs.Prelude.{◌≡◌, ◌<◌, ◌*◌, IfSome, vec_len};
ghost use Rattle.word_board.specs.Boards.{IsSeatOf};

use crate::nodes::put_head;
use crate::pages::NodesAlone;
use clr_base::TableFull;
use std::alloc::Global;
use std::test::Fail;
use std::thread::{Threads, join};
use word_board::{Board, Seat};

// A pass, and the cell that it was told of each of the thousand heads; none where some head found no cell.
type Run = (Seat<NodesAlone>, Option<Vec<u32>>);

type Two = (Seat<NodesAlone>, Seat<NodesAlone>);

const NODES: u32 = 1000;

// Each thread goes through the heads in steps of its own, which have no divisor in common with 1,000.
const STRIDES: [u32; 8] = [1, 3, 7, 9, 11, 13, 17, 19];

// Puts the thousand heads in the order of a thread.
fn put_all(alloc: Global, board: &Board<NodesAlone>, mut seat: Seat<NodesAlone>, thread: u32) -> Run
    requires own { IsSeatOf board.now seat }
    requires thread { thread < 8 }
    ensures { IsSeatOf board.now result.0 }
{
    let Ok(mut told) = vec![in alloc; 0; 1000] else {
        return (seat, None);
    };
    let stride = STRIDES[thread as usize] as u64;
    for i in 0..NODES {
        let definition = ((i as u64 * stride + 125 * thread as u64) % 1000) as u32;
        match put_head(board, &mut seat, definition) {
            Ok(cell) => told[definition as usize] = cell.0,
            Err(TableFull) => return (seat, None),
        }
    }
    (seat, Some(told))
}

// The cells that two passes were told, none where they were told different ones.
fn same(one: Option<Vec<u32>>, two: Option<Vec<u32>>) -> Option<Vec<u32>> {
    let one = one?;
    let two = two?;
    if one.as_slice() == two.as_slice() {
        Some(one)
    } else {
        None
    }
}

// One pass takes the other in.
fn merged(board: &Board<NodesAlone>, one: Run, two: Run) -> Run
    requires { IsSeatOf board.now one.0 × IsSeatOf board.now two.0 }
    ensures { IsSeatOf board.now result.0 }
{
    let (mut seat, one) = one;
    let (gone, two) = two;
    board.join(&mut seat, gone);
    (seat, same(one, two))
}

fn run_two<R: Threads + Sync>(
    rt: &R,
    alloc: Global,
    board: &Board<NodesAlone>,
    seats: Two,
    thread: u32,
) -> Run
    requires own { IsSeatOf board.now seats.0 × IsSeatOf board.now seats.1 }
    requires thread { thread < 7 }
    ensures { IsSeatOf board.now result.0 }
{
    let (a, b) = seats;
    let (one, two) = join(
        rt,
        || -> Run
            requires { IsSeatOf board.now a × (thread < 8) }
            ensures { IsSeatOf board.entry.now result.0 }
        { put_all(alloc, board, a, thread) },
        || -> Run
            requires { IsSeatOf board.now b × (thread < 7) }
            ensures { IsSeatOf board.entry.now result.0 }
        { put_all(alloc, board, b, thread + 1) },
    );
    merged(board, one, two)
}

fn run_four<R: Threads + Sync>(
    rt: &R,
    alloc: Global,
    board: &Board<NodesAlone>,
    seats: (Two, Two),
    thread: u32,
) -> Run
    requires left { IsSeatOf board.now seats.0.0 × IsSeatOf board.now seats.0.1 }
    requires right { IsSeatOf board.now seats.1.0 × IsSeatOf board.now seats.1.1 }
    requires thread { thread < 5 }
    ensures { IsSeatOf board.now result.0 }
{
    let (a, b) = seats;
    let (one, two) = join(
        rt,
        || -> Run
            requires { IsSeatOf board.now a.0 × IsSeatOf board.now a.1 × (thread < 7) }
            ensures { IsSeatOf board.entry.now result.0 }
        { run_two(rt, alloc, board, a, thread) },
        || -> Run
            requires { IsSeatOf board.now b.0 × IsSeatOf board.now b.1 × (thread < 5) }
            ensures { IsSeatOf board.entry.now result.0 }
        { run_two(rt, alloc, board, b, thread + 2) },
    );
    merged(board, one, two)
}

// Two passes out of one.
fn forked(alloc: Global, board: &Board<NodesAlone>, mut seat: Seat<NodesAlone>) -> Option<Two>
    requires { IsSeatOf board.now seat }
    ensures { IfSome result (λ s. IsSeatOf board.now s.0 × IsSeatOf board.now s.1) }
{
    board.draw(&mut seat)?;
    let other = board.split(alloc, &mut seat).ok()?;
    Some((seat, other))
}

fn forked_in_four(
    alloc: Global,
    board: &Board<NodesAlone>,
    seat: Seat<NodesAlone>,
) -> Option<(Two, Two)>
    requires { IsSeatOf board.now seat }
    ensures left { IfSome result (λ s. IsSeatOf board.now s.0.0 × IsSeatOf board.now s.0.1) }
    ensures right { IfSome result (λ s. IsSeatOf board.now s.1.0 × IsSeatOf board.now s.1.1) }
{
    let (a, b) = forked(alloc, board, seat)?;
    let a = forked(alloc, board, a)?;
    let b = forked(alloc, board, b)?;
    Some((a, b))
}

fn run_eight<R: Threads + Sync>(
    rt: &R,
    alloc: Global,
    board: &Board<NodesAlone>,
    seat: Seat<NodesAlone>,
) -> Option<Run>
    requires own { IsSeatOf board.now seat }
    ensures { IfSome result (λ r. IsSeatOf board.now r.0) }
{
    let (a, b) = forked(alloc, board, seat)?;
    let a = forked_in_four(alloc, board, a)?;
    let b = forked_in_four(alloc, board, b)?;
    let (one, two) = join(
        rt,
        || -> Run
            requires left { IsSeatOf board.now a.0.0 × IsSeatOf board.now a.0.1 }
            requires right { IsSeatOf board.now a.1.0 × IsSeatOf board.now a.1.1 }
            ensures { IsSeatOf board.entry.now result.0 }
        { run_four(rt, alloc, board, a, 0) },
        || -> Run
            requires left { IsSeatOf board.now b.0.0 × IsSeatOf board.now b.0.1 }
            requires right { IsSeatOf board.now b.1.0 × IsSeatOf board.now b.1.1 }
            ensures { IsSeatOf board.entry.now result.0 }
        { run_four(rt, alloc, board, b, 4) },
    );
    Some(merged(board, one, two))
}

// The thousand heads are all that is set, and each stands in the cell that was told of it.
fn stand_as_told(words: &[u64], told: &[u32]) -> bool {
    if words.iter().filter(|&word| *word != 0).count() != 1000 {
        return false;
    }
    for definition in 0..NODES {
        let Some(cell) = told.get(definition as usize) else {
            return false;
        };
        if words.get(*cell as usize) != Some(&(1 + 16 * definition as u64)) {
            return false;
        }
    }
    true
}

// Threads were told the same cells, in which the heads stand as the board closes.
fn are_told(alloc: Global, board: Board<NodesAlone>, run: Option<Run>) -> bool
    requires { IfSome run (λ r. IsSeatOf board r.0) }
{
    let Some((seat, told)) = run else {
        return false;
    };
    let Some(told) = told else {
        return false;
    };
    match board.close(alloc, seat) {
        Ok(words) => stand_as_told(words.as_slice(), told.as_slice()),
        Err(_) => false,
    }
}

#[test]
fn two_threads_are_told_the_same_cells(rt: HostRuntime) -> Result<(), Fail> {
    let (board, seat) = Board::open(rt.alloc(), NodesAlone { cells: 2048 }, 67_584)?;
    let Some(seats) = forked(rt.alloc(), &board, seat) else {
        panic!(rt; "no number");
    };
    let run = run_two(&rt, rt.alloc(), &board, seats, 0);
    assert!(rt; are_told(rt.alloc(), board, Some(run)));
    Ok(())
}

#[test]
fn eight_threads_are_told_the_same_cells(rt: HostRuntime) -> Result<(), Fail> {
    let (board, seat) = Board::open(rt.alloc(), NodesAlone { cells: 2048 }, 67_584)?;
    let run = run_eight(&rt, rt.alloc(), &board, seat);
    assert!(rt; are_told(rt.alloc(), board, run));
    Ok(())
}
