//! What holds of the journal of every lawful board.
ghost use Rattle.std.specs.Prelude.{◌≡◌, ℕ, ◌+◌, ◌*◌, ◌≤◌, List, [], ◌++◌, length};
ghost use Rattle.word_board.specs.Marks.{Has, Lawful};
ghost use Rattle.word_board.specs.Places.{journal_place};
ghost use Rattle.word_board.specs.declared.view.Mark.{Mark};
ghost use Rattle.load_events.specs.Events.{word_of, caller_of};
ghost use Rattle.load_events.specs.declared.event.Event.{Event};
ghost use Rattle.load_events.specs.Histories.{Follows};
ghost use Rattle.load_history.specs.Journal.{StandsAt, IsFront};

use crate::journal::Journal;

/// A set place has one event, which its caller set, and all lower places have events too.
pub fn places_below<P: Journal>()
    ensures { (page : P) (all : List Mark) → Lawful (P.may page) all
        → (m : Mark) (i : ℕ) → Has all m → m.place ≡ journal_place (P.cell_count page) i
        → (es : List Event) × (e : Event)
        × IsFront (P.cell_count page) all es × (length es ≡ i)
        × StandsAt (P.cell_count page) all i e × (m.word ≡ word_of e) × (m.by ≡ caller_of e) }
{}

/// The places are one list: of two fronts the longer begins with the shorter.
pub fn one_list<P: Journal>()
    ensures { (page : P) (all : List Mark) → Lawful (P.may page) all
        → (xs ys : List Event) → length xs ≤ length ys
        → IsFront (P.cell_count page) all xs → IsFront (P.cell_count page) all ys
        → (rest : List Event) × (ys ≡ xs ++ rest) }
{}

/// A front is a legal history: each event may come next after those before it.
pub fn front_legal<P: Journal>()
    ensures { (page : P) (all : List Mark) → Lawful (P.may page) all
        → (es : List Event) → IsFront (P.cell_count page) all es → Follows (P.may_follow page all) [] es }
{}
