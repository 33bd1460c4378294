//! Passes: their numbers, and how they are made and taken in.
ghost use Rattle.std.specs.Prelude.{◌≡◌, ◌+◌, ◌*◌, ◌<◌, ◌≤◌, [], ◌∷◌, ◌++◌, length, IsNone, IfSome, IfNone, IfOk, OnErr};
ghost use Rattle.word_board.specs.Marks.{Has};
ghost use Rattle.word_board.specs.Views.{finding, drawing_one, handing, losing, forked, joined, IsPending, Stalls};
ghost use Rattle.word_board.specs.Boards.{IsSeatOf, IsSame, page_of, view_of};

use crate::board::Board;
use crate::page::Page;
use crate::plays::{Count, Fork, Lose, Number, Take};
use crate::seat::Seat;
use crate::view::Draw;
use clr_base::Memory;
use std::alloc::Global;

// The greatest number of a pass.
const LAST_NUMBER: u64 = 4095;

impl<P: Page> Board<P> {
    /// The next number, from 1, which is then pending. None where the numbers 1 to 4,095 were drawn.
    ///
    /// A call that finds 4,095 numbers drawn adds nothing to the number word,
    /// so each pass overshoots once at most.
    pub fn draw(&self, seat: &mut Seat<P>) -> Option<u32>
        requires own { IsSeatOf self.now seat.old }
        ensures own { IsSame seat.old seat.new × IsSeatOf self.now seat.new }
        ensures some { IfSome result (λ n. (n ≤ 4095) × (view_of seat.new ≡ drawing_one (view_of seat.old) n)) }
        ensures above { IfSome result (λ n.
            ((view_of seat.old).least < n)
            × ((d : Draw) → Has (view_of seat.old).drawn d → d.number < n)) }
        ensures none { IfNone result (Stalls (view_of seat.old) (view_of seat.new)) }
        ensures ended { 4095 ≤ (view_of seat.old).least
            → IsNone result
            × (view_of seat.new ≡ finding (view_of seat.old) (view_of seat.new).least) }
    {
        let found = self.table.shared.load::<Count>(&mut seat.place, 0);
        if found >= LAST_NUMBER {
            return None;
        }
        let found = self.table.shared.fetch_add::<Number>(&mut seat.place, 0, 1);
        if found >= LAST_NUMBER {
            return None;
        }
        Some(found as u32 + 1)
    }

    /// A new pass, which has the number that was drawn last and has seen as much.
    /// For want of memory the number is lost.
    ///
    /// A pass has no bytes so far, so this takes no memory and never refuses;
    /// a caller has to be ready for it nevertheless.
    pub fn split(&self, _alloc: Global, seat: &mut Seat<P>) -> Result<Seat<P>, Memory>
        requires own { IsSeatOf self.now seat.old }
        requires pending { IsPending (view_of seat.old).drawn }
        ensures own { IsSame seat.old seat.new × IsSeatOf self.now seat.new }
        ensures new { IfOk result (λ new.
            IsSeatOf self.now new
            × (view_of new ≡ forked (view_of seat.old))
            × (view_of seat.new ≡ handing (view_of seat.old))) }
        ensures lost { OnErr result (view_of seat.new ≡ losing (view_of seat.old)) }
    {
        Ok(Seat {
            place: self.table.shared.split_seat::<Fork>(&mut seat.place),
        })
    }

    /// Gives up the number that was drawn last: no pass will have it.
    /// This is for a caller whose own memory for the new pass fails.
    pub fn lose(&self, seat: &mut Seat<P>)
        requires own { IsSeatOf self.now seat.old }
        requires pending { IsPending (view_of seat.old).drawn }
        ensures own { IsSame seat.old seat.new × IsSeatOf self.now seat.new }
        ensures lost { view_of seat.new ≡ losing (view_of seat.old) }
    {
        self.table.shared.load::<Lose>(&mut seat.place, 0);
    }

    /// Takes a pass in: with all that it has seen, with what it keeps, and with its numbers.
    pub fn join(&self, into: &mut Seat<P>, gone: Seat<P>)
        requires own { IsSeatOf self.now into.old × IsSeatOf self.now gone }
        ensures own { IsSame into.old into.new × IsSeatOf self.now into.new }
        ensures joined { view_of into.new ≡ joined (view_of into.old) (view_of gone) }
    {
        let Seat { place } = gone;
        self.table.shared.join_seat::<Take>(&mut into.place, place);
    }
}
