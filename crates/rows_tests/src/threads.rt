//! Tests of threads that publish the circle from both sides, and of a full table.
ghost use Rattle.std.specs.Prelude.{◌≡◌, ◌<◌, ◌≤◌, ◌^◌, [], length, replicate, vec_capacity, IfSome};
ghost use Rattle.word_board.specs.Boards.{IsSeatOf};
ghost use Rattle.rows_tests.specs.Classes.{words, static_field};
ghost use Rattle.rows_tests.specs.Circle.{parts, members};

use crate::classes::Classes;
use clr_base::{DefId, Handle};
use key_publish::{Member, Part, asked_known, publish};
use key_rows::read_handle;
use sqlite_items::Items;
use std::alloc::Global;
use std::test::Fail;
use std::thread::{Threads, join};
use type_record::{FieldOf, Form, Shape, TypeRecord, entries};
use word_board::{Board, Seat};

// A pass, and the handles of a class and of its parent; none where it was not published.
type Run = (Seat<Classes>, Option<(Handle, Option<Handle>)>);

const STATIC: FieldOf<u32> = FieldOf {
    offset: None,
    value: None,
};

// A member, by the number of its part and by that of its parent's, and its static fields.
fn member(
    alloc: Global,
    part: u32,
    parent: Option<u32>,
    fields: Items<FieldOf<u32>>,
) -> Option<Member>
    requires few { length fields < 2 ^ 32 }
    requires all_static { fields ≡ replicate (length fields) static_field }
    ensures part { IfSome result (λ m. m.part ≡ part) }
    ensures words { IfSome result (λ m. m.record ≡ words part parent (length fields)) }
{
    let shape = Shape {
        form: Form::Class,
        args: 0,
        interfaces: 0,
        fields: fields.len() as u32,
        slots: 0,
        size: 8,
    };
    let record = TypeRecord {
        shape,
        parent,
        canon: part,
        element: None,
        args: Items::new(alloc),
        interfaces: Items::new(alloc),
        fields,
        slots: Items::new(alloc),
        interface_slots: Items::new(alloc),
    };
    let Ok(record) = entries(alloc, &record) else {
        return None;
    };
    Some(Member { part, record })
}

fn plan(alloc: Global) -> Option<(Vec<Part>, Vec<Member>, Vec<Handle>)>
    ensures plan { IfSome result (λ p. (p.0.items ≡ parts) × (p.1.items ≡ members)) }
    ensures room { IfSome result (λ p. (p.2.items ≡ []) × (2 ≤ vec_capacity p.2)) }
{
    let first = Part::Head {
        definition: DefId(0),
    };
    let second = Part::Head {
        definition: DefId(1),
    };
    let parts = Vec::from_array(alloc, [first, second]).ok()?;
    let first = member(alloc, 0, None, Items::new(alloc))?;
    let fields = Items::from_slice(alloc, &[STATIC; 30]).ok()?;
    let second = member(alloc, 1, Some(0), fields)?;
    let members = Vec::from_array(alloc, [first, second]).ok()?;
    let mut handles = Vec::new(alloc);
    handles.reserve(2).ok()?;
    Some((parts, members, handles))
}

// Publishes a class, and reads its parent.
fn load(alloc: Global, board: &Board<Classes>, mut seat: Seat<Classes>, asked: u32) -> Run
    requires own { IsSeatOf board.now seat }
    requires asked { asked < 2 }
    ensures { IsSeatOf board.now result.0 }
{
    let Some((parts, members, mut handles)) = plan(alloc) else {
        return (seat, None);
    };
    let Ok(handle) = publish(
        board,
        &mut seat,
        parts.as_slice(),
        members.as_slice(),
        asked,
        &mut handles,
    ) else {
        return (seat, None);
    };
    asked_known::<Classes>();
    let parent = read_handle(board, &mut seat, handle, 1);
    (seat, Some((handle, parent)))
}

// Two threads publish a class each. One pass then takes the other in.
fn load_both<R: Threads + Sync>(
    rt: &R,
    alloc: Global,
    board: &Board<Classes>,
    mut seat: Seat<Classes>,
) -> Option<(Run, Option<(Handle, Option<Handle>)>)>
    requires { IsSeatOf board.now seat }
    ensures { IfSome result (λ r. IsSeatOf board.now r.0.0) }
{
    board.draw(&mut seat)?;
    let other = board.split(alloc, &mut seat).ok()?;
    let (one, two) = join(
        rt,
        || -> Run
            requires { IsSeatOf board.now seat }
            ensures { IsSeatOf board.entry.now result.0 }
        { load(alloc, board, seat, 1) },
        || -> Run
            requires { IsSeatOf board.now other }
            ensures { IsSeatOf board.entry.now result.0 }
        { load(alloc, board, other, 0) },
    );
    let (mut seat, second) = one;
    let (gone, first) = two;
    board.join(&mut seat, gone);
    Some(((seat, second), first))
}

// How many words are set as the board closes; none for want of memory.
fn words_set(alloc: Global, board: Board<Classes>, seat: Seat<Classes>) -> Option<usize>
    requires { IsSeatOf board seat }
{
    let words = board.close(alloc, seat).ok()?;
    Some(words.as_slice().iter().filter(|&word| *word != 0).count())
}

// The second class has the first as its parent, by the handle that the other thread was told, and 49 words are set: 2 heads and a further row, 7 and 37 words of records and levels, and level 4 of both.
fn is_circle(
    alloc: Global,
    board: Board<Classes>,
    run: Option<(Run, Option<(Handle, Option<Handle>)>)>,
) -> bool
    requires { IfSome run (λ r. IsSeatOf board r.0.0) }
{
    let Some(((seat, second), first)) = run else {
        return false;
    };
    let (Some((second, parent)), Some((first, none))) = (second, first) else {
        return false;
    };
    first != second
        && parent == Some(first)
        && none.is_none()
        && words_set(alloc, board, seat) == Some(49)
}

#[test]
fn two_threads_publish_a_circle(rt: HostRuntime) -> Result<(), Fail> {
    let (board, seat) = Board::open(rt.alloc(), Classes { cells: 8 }, 264)?;
    let run = load_both(&rt, rt.alloc(), &board, seat);
    assert!(rt; is_circle(rt.alloc(), board, run));
    Ok(())
}

// A table of one cell takes one head alone.
fn is_full(alloc: Global, board: Board<Classes>, seat: Seat<Classes>) -> bool
    requires { IsSeatOf board seat }
{
    let (seat, told) = load(alloc, &board, seat, 1);
    told.is_none() && words_set(alloc, board, seat) == Some(1)
}

#[test]
fn a_full_table(rt: HostRuntime) -> Result<(), Fail> {
    let (board, seat) = Board::open(rt.alloc(), Classes { cells: 1 }, 33)?;
    assert!(rt; is_full(rt.alloc(), board, seat));
    Ok(())
}
