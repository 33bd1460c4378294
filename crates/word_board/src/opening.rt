//! Opening and closing a board.
ghost use Rattle.std.specs.Prelude.{◌≡◌, ◌<◌, ◌≤◌, ◌+◌, [], length, replicate, vec_capacity, IfOk, IfErr};
ghost use Rattle.std.specs.Slots.{slots_items, slots_len, IsFull};
ghost use Rattle.word_board.specs.Places.{place_count};
ghost use Rattle.word_board.specs.Views.{newcomer};
ghost use Rattle.word_board.specs.Closing.{Closes, RowOf};
ghost use Rattle.word_board.specs.Boards.{IsSeatOf, page_of, view_of};

use crate::board::Board;
use crate::page::Page;
use crate::plays::Law;
use crate::seat::Seat;
use crate::view::{Plan, View};
use atomic_table::{Closed, Table};
use clr_base::Memory;
use std::alloc::Global;

fn zeros(alloc: Global, count: usize) -> Result<Vec<u64>, Memory>
    ensures { IfOk result (λ v. v.items ≡ replicate count 0) }
{
    let words = vec![in alloc; 0; count]?;
    Ok(words)
}

// The words but the first.
fn row_of(closed: &Closed<u64, Global>, count: usize, row: &mut Vec<u64>)
    requires full { IsFull closed.now.words × (slots_len closed.now.words ≡ count + 1) }
    requires room { (row.old.items ≡ []) × (count ≤ vec_capacity row.old) }
    ensures { RowOf (slots_items closed.now.words) count row.new.items }
{
    for i in 0..count {
        row.push_reserved(closed.word(i + 1));
    }
}

impl<P: Page + Drop> Board<P> {
    /// A board on which no word is set, and the pass with number 0. It refuses for want of memory.
    pub fn open(alloc: Global, page: P, places: u32) -> Result<(Board<P>, Seat<P>), Memory>
        requires { places ≡ place_count (P.cell_count page) (P.journal_count page) }
        ensures { IfOk result (λ r.
            (page_of r.0 ≡ page) × IsSeatOf r.0 r.1 × (view_of r.1 ≡ newcomer page)) }
    {
        let words = zeros(alloc, places as usize + 1)?;
        let plan = Plan {
            page,
            places: places as u64,
        };
        let (table, place) = Table::<u64, View<P>, Plan<P>, Law, Global>::of_words(
            alloc,
            words.as_slice(),
            &plan,
        )?;
        Ok((Board { plan, table }, Seat { place }))
    }

    /// The word of each place in order, 0 where none is set.
    /// For want of memory it gives the board and the seat back.
    pub fn close(self, alloc: Global, seat: Seat<P>) -> Result<Vec<u64>, (Board<P>, Seat<P>)>
        requires own { IsSeatOf self seat }
        ensures ok { IfOk result (λ words.
            Closes (P.may (page_of self))
            (place_count (P.cell_count (page_of self)) (P.journal_count (page_of self)))
            (view_of seat) words.items) }
        ensures err { IfErr result (λ r. (r.0 ≡ self) × (r.1 ≡ seat)) }
    {
        let count = self.table.word_count() - 1;
        let mut row = Vec::new(alloc);
        if row.reserve(count).is_err() {
            return Err((self, seat));
        }
        let Board { plan: _, table } = self;
        let Seat { place } = seat;
        let closed = table.close_with(place);
        row_of(&closed, count, &mut row);
        closed.free();
        Ok(row)
    }
}
