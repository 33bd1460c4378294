//! Adding events to the journal, and reading them.
ghost use Rattle.std.specs.Prelude.{◌≡◌, ◌≢◌, ℕ, ◌+◌, ◌<◌, ◌≤◌, ◌↔◌, [], ◌∷◌, ◌++◌, IsErr, IfOk, IfSome, IfNone, OnErr};
ghost use Rattle.word_board.specs.Marks.{mark};
ghost use Rattle.word_board.specs.Places.{journal_place};
ghost use Rattle.word_board.specs.Views.{number_of, Grown, Vacant, Known};
ghost use Rattle.word_board.specs.Boards.{IsSeatOf, IsSame, page_of, view_of};
ghost use Rattle.load_events.specs.Events.{word_of, caller_of, IsNarrow};
ghost use Rattle.load_history.specs.Journal.{StandsAt, HasFront};

use crate::journal::Journal;
use clr_base::HistoryFull;
use load_events::Event;
use word_board::{Board, Seat};

/// Adds an event at a place of the journal, counted from 0: None where this call set it,
/// else the event that stood there already. HistoryFull comes exactly where the place is past the last.
///
/// The pass has seen events at all lower places. The event's caller is the pass's number,
/// and where there is such a place, the event may stand there by what the pass has seen.
pub fn add<P: Journal>(
    board: &Board<P>,
    seat: &mut Seat<P>,
    place: u32,
    event: Event,
) -> Result<Option<Event>, HistoryFull>
    requires own { IsSeatOf board.now seat.old }
    requires narrow { IsNarrow event }
    requires caller { caller_of event ≡ number_of (view_of seat.old) }
    requires front { HasFront (P.cell_count (page_of board.now)) (view_of seat.old).seen place }
    requires may { place < P.journal_count (page_of board.now)
        → P.may (page_of board.now) (view_of seat.old).seen
        (mark (journal_place (P.cell_count (page_of board.now)) place) (word_of event)
        (number_of (view_of seat.old))) }
    ensures own { IsSame seat.old seat.new × IsSeatOf board.now seat.new }
    ensures full { IsErr result ↔ (P.journal_count (page_of board.now) ≤ place) }
    ensures same { OnErr result (view_of seat.new ≡ view_of seat.old) }
    ensures view { Grown (view_of seat.old) (view_of seat.new) }
    ensures added { IfOk result (λ r. IfNone r
        (StandsAt (P.cell_count (page_of board.now)) (view_of seat.new).seen place event
        × ((view_of seat.new).kept ≡ (view_of seat.old).kept
        ++ mark (journal_place (P.cell_count (page_of board.now)) place) (word_of event) (caller_of event)
        ∷ []))) }
    ensures stood { IfOk result (λ r. IfSome r (λ e.
        StandsAt (P.cell_count (page_of board.now)) (view_of seat.new).seen place e
        × ((view_of seat.new).kept ≡ (view_of seat.old).kept))) }
    ensures longer { IfOk result (λ _.
        HasFront (P.cell_count (page_of board.now)) (view_of seat.new).seen (place + 1)) }
    ensures known { IfOk result (λ _. Known P.may (view_of seat.new)) }
{
    if place >= board.page().journal() {
        return Err(HistoryFull);
    }
    let at = board.journal_place(place);
    let old = board.set(seat, at, event.word());
    if old == 0 {
        return Ok(None);
    }
    Ok(Some(Event::of_word(old)))
}

/// The event at a place of the journal, counted from 0. None where none was set as the place was loaded,
/// or where the place is past the last.
pub fn walk<P: Journal>(board: &Board<P>, seat: &mut Seat<P>, place: u32) -> Option<Event>
    requires own { IsSeatOf board.now seat.old }
    ensures own { IsSame seat.old seat.new × IsSeatOf board.now seat.new }
    ensures view { Grown (view_of seat.old) (view_of seat.new)
        × ((view_of seat.new).kept ≡ (view_of seat.old).kept) }
    ensures event { IfSome result (λ e.
        StandsAt (P.cell_count (page_of board.now)) (view_of seat.new).seen place e
        × Known P.may (view_of seat.new)) }
    ensures longer { IfSome result (λ _.
        HasFront (P.cell_count (page_of board.now)) (view_of seat.old).seen place
        → HasFront (P.cell_count (page_of board.now)) (view_of seat.new).seen (place + 1)) }
    ensures none { IfNone result ((view_of seat.new ≡ view_of seat.old)
        × (place < P.journal_count (page_of board.now)
        → Vacant P.may (view_of seat.old) (journal_place (P.cell_count (page_of board.now)) place))) }
{
    if place >= board.page().journal() {
        return None;
    }
    let at = board.journal_place(place);
    let word = board.look(seat, at);
    if word == 0 {
        return None;
    }
    Some(Event::of_word(word))
}
