//! Which pages have events in their journal.
ghost use Rattle.std.specs.Prelude.{ℕ, ◌*◌, ◌≤◌, List};
ghost use Rattle.word_board.specs.declared.view.Mark.{Mark};
ghost use Rattle.load_events.specs.declared.event.Event.{Event};
ghost use Rattle.load_history.specs.Journal.{JournalRule};

use word_board::Page;

/// A page on which a word may stand at a place of the journal only where it is an event's word, set by the event's caller;
/// where all lower places are set, to events too; and where the event may come next after those.
pub trait Journal: Page {
    // By the set words the event may come next after these.
    ghost may_follow: { Self → List Mark → List Event → Event → Type 0 };

    ghost journal_rule: { (page : Self) (all : List Mark) (m : Mark) → Self.may page all m
        → 33 * Self.cell_count page ≤ m.place
        → JournalRule (Self.cell_count page) all (may_follow page all) m };
}
