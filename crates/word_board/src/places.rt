//! Where the words of a board stand.
ghost use Rattle.std.specs.Prelude.{◌≡◌, ℕ, ◌+◌, ◌*◌, ◌<◌, ◌≤◌};
ghost use Rattle.word_board.specs.Places.{row_place, journal_place, IsInRows, IsInJournal};
ghost use Rattle.word_board.specs.Boards.{page_of};

use crate::board::Board;
use crate::page::Page;

impl<P: Page> Board<P> {
    /// The place of a word, below 32, of the row of a cell. It lies behind the cells and before the journal.
    pub fn row_place(&self, cell: u32, word: u32) -> u32
        requires cell { cell < P.cell_count (page_of self.now) }
        requires word { word < 32 }
        ensures place { result ≡ row_place (P.cell_count (page_of self.now)) cell word }
        ensures inside { IsInRows (P.cell_count (page_of self.now)) result }
    {
        self.plan.page.cells() + 32 * cell + word
    }

    /// The place of a word of the journal. It lies behind the rows.
    pub fn journal_place(&self, entry: u32) -> u32
        requires entry { entry < P.journal_count (page_of self.now) }
        ensures place { result ≡ journal_place (P.cell_count (page_of self.now)) entry }
        ensures inside { IsInJournal (P.cell_count (page_of self.now)) (P.journal_count (page_of self.now)) result }
    {
        33 * self.plan.page.cells() + entry
    }
}
