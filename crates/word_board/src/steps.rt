//! Looking at a place, and setting it.
ghost use Rattle.std.specs.Prelude.{◌≡◌, ◌≢◌, ℕ, ◌+◌, ◌<◌, ◌≤◌, List};
ghost use Rattle.word_board.specs.Marks.{mark};
ghost use Rattle.word_board.specs.Places.{place_count};
ghost use Rattle.word_board.specs.Views.{number_of, seeing, setting, Agrees, Vacant, Known, Grown, SeenAt, KeepsOne};
ghost use Rattle.word_board.specs.Boards.{IsSeatOf, IsSame, page_of, view_of};

use crate::board::Board;
use crate::page::Page;
use crate::plays::{Look, Recall, Set};
use crate::seat::Seat;

impl<P: Page> Board<P> {
    /// The page that the board was opened with.
    pub fn page(&self) -> &P
        ensures { result.now ≡ page_of self.now }
    {
        &self.plan.page
    }

    /// The word at a place, or 0 where none is set. What is there is seen from now on.
    ///
    /// A 0 tells of a moment: some lawful board has all that the pass has seen,
    /// and this place is not set in it.
    pub fn look(&self, seat: &mut Seat<P>, place: u32) -> u64
        requires own { IsSeatOf self.now seat.old }
        requires inside { place < place_count (P.cell_count (page_of self.now)) (P.journal_count (page_of self.now)) }
        ensures own { IsSame seat.old seat.new × IsSeatOf self.now seat.new }
        ensures agrees { Agrees (view_of seat.old).seen place result }
        ensures seen { result ≢ 0
            → (by : ℕ) × (view_of seat.new ≡ seeing (view_of seat.old) (mark place result by)) }
        ensures none { result ≡ 0
            → (view_of seat.new ≡ view_of seat.old) × Vacant P.may (view_of seat.old) place }
        ensures known { Known P.may (view_of seat.new) }
    {
        self.table
            .shared
            .load::<Look>(&mut seat.place, place as usize + 1)
    }

    /// Sets the word of a place where none is set, and answers the word that stood there,
    /// 0 if this call set it.
    ///
    /// By what the pass has seen the word has to be one that may stand.
    /// The word that stands is seen from now on.
    pub fn set(&self, seat: &mut Seat<P>, place: u32, word: u64) -> u64
        requires own { IsSeatOf self.now seat.old }
        requires inside { place < place_count (P.cell_count (page_of self.now)) (P.journal_count (page_of self.now)) }
        requires word { 0 < word }
        requires may { P.may (page_of self.now) (view_of seat.old).seen
            (mark place word (number_of (view_of seat.old))) }
        ensures own { IsSame seat.old seat.new × IsSeatOf self.now seat.new }
        ensures agrees { Agrees (view_of seat.old).seen place result }
        ensures set { result ≡ 0
            → view_of seat.new
            ≡ setting (view_of seat.old) (mark place word (number_of (view_of seat.old))) }
        ensures seen { result ≢ 0
            → (by : ℕ) × (view_of seat.new ≡ seeing (view_of seat.old) (mark place result by)) }
        ensures known { Known P.may (view_of seat.new) }
    {
        self.table
            .shared
            .compare_exchange::<Set>(&mut seat.place, place as usize + 1, 0, word)
    }

    /// Looks at a place, sets its word where none is set, and answers the word that stands there then.
    ///
    /// By what the pass has seen the word has to be one that may stand.
    pub fn settle(&self, seat: &mut Seat<P>, place: u32, word: u64) -> u64
        requires own { IsSeatOf self.now seat.old }
        requires inside { place < place_count (P.cell_count (page_of self.now)) (P.journal_count (page_of self.now)) }
        requires word { 0 < word }
        requires may { P.may (page_of self.now) (view_of seat.old).seen
            (mark place word (number_of (view_of seat.old))) }
        ensures own { IsSame seat.old seat.new × IsSeatOf self.now seat.new }
        ensures word { (0 < result) × SeenAt (view_of seat.new) place result }
        ensures view { Grown (view_of seat.old) (view_of seat.new) }
        ensures kept { KeepsOne (view_of seat.old) (view_of seat.new) place word }
        ensures other { result ≢ word → (view_of seat.new).kept ≡ (view_of seat.old).kept }
        ensures known { Known P.may (view_of seat.new) }
    {
        let found = self.look(seat, place);
        if found != 0 {
            return found;
        }
        let old = self.set(seat, place, word);
        if old != 0 { old } else { word }
    }

    /// What the rule says of a pass at any time. Nothing changes.
    pub fn recall(&self, seat: &mut Seat<P>)
        requires own { IsSeatOf self.now seat.old }
        ensures own { IsSame seat.old seat.new × (view_of seat.new ≡ view_of seat.old) }
        ensures known { Known P.may (view_of seat.old) }
    {
        self.table.shared.load::<Recall>(&mut seat.place, 0);
    }
}
