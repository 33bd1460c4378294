//! The steps of the search.

ghost use Rattle.std.specs.Prelude.{◌≡◌, ◌<◌, ◌≤◌, ℕ, [], ◌∷◌, ◌++◌, OnOk, Contains};
ghost use Rattle.closed_walks.specs.Search as spec;
ghost use Rattle.closed_walks.specs.Invariant.{IsSearch, IsCut, Rising, with_pending, Goes};

use crate::graph::{Edge, edges_from};
use crate::search::{Pending, Search, State, last, pop_pending, push_pending, set_state, state_at};
use crate::settling::close;
use clr_base::Memory;
use sqlite_items::Items;

/// Puts a node at the end of the path, as a part by itself.
fn enter(search: &mut Search, graph: &[Items<Edge>], node: usize) -> Result<(), Memory>
    ensures { OnOk result (search.new ≡ spec.entered graph.now node search.old) }
{
    let place = search.path.len();
    set_state(&mut search.states, node, State::Open(place));
    search.path.push(node)?;
    search.starts.push(place)?;
    push_pending(&mut search.pending, place, edges_from(graph, node))
}

/// Joins the parts behind a place with the part that it stands in.
fn join(starts: &mut Items<usize>, place: usize)
    requires { Rising starts.old }
    ensures { IsCut place starts.old starts.new }
{
    while let Some(start) = last(starts.as_slice()) {
        if start <= place {
            return;
        }
        starts.pop();
    }
}

/// Follows an edge that was pending last.
fn follow(search: &mut Search, graph: &[Items<Edge>], pending: Pending) -> Result<(), Memory>
    requires known { IsSearch graph.now (with_pending search.old (search.old.pending ++ pending ∷ [])) }
    requires last { (q : ℕ) → Contains search.old.starts q → q ≤ pending.at }
    ensures { OnOk result (Goes graph.now (with_pending search.old (search.old.pending ++ pending ∷ [])) search.new) }
{
    match state_at(search.states.as_slice(), pending.edge.to) {
        State::Unseen => enter(search, graph, pending.edge.to),
        State::Open(place) => {
            join(&mut search.starts, place);
            Ok(())
        }
        State::Done(_) => Ok(()),
    }
}

/// One step in the last part of the path, which starts there.
fn step(search: &mut Search, graph: &[Items<Edge>], start: usize) -> Result<(), Memory>
    requires known { IsSearch graph.now search.old }
    requires last { spec.EndsWith search.old.starts start }
    ensures { OnOk result (Goes graph.now search.old search.new) }
{
    match pop_pending(&mut search.pending, start) {
        Some(pending) => follow(search, graph, pending),
        None => {
            close(search, graph, start);
            Ok(())
        }
    }
}

/// Finds out of an unseen node, and of all that it leads to.
pub(crate) fn explore(search: &mut Search, graph: &[Items<Edge>], node: usize) -> Result<(), Memory>
    requires known { IsSearch graph.now search.old }
    requires idle { search.old.starts ≡ [] }
    requires unseen { spec.state_at search.old.states node ≡ State.Unseen }
    ensures known { OnOk result (IsSearch graph.now search.new) }
    ensures idle { OnOk result (search.new.starts ≡ []) }
    ensures seen { OnOk result (spec.AllSeen search.old.states search.new.states node) }
{
    enter(search, graph, node)?;
    while let Some(start) = last(search.starts.as_slice()) {
        step(search, graph, start)?;
    }
    Ok(())
}
