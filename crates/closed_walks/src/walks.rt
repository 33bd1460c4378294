//! The search of a whole graph.

ghost use Rattle.std.specs.Prelude.{◌≡◌, [], IfOk, OnOk, map};
ghost use Rattle.closed_walks.specs.Search as spec;
ghost use Rattle.closed_walks.specs.Walks.{AreFound};
ghost use Rattle.closed_walks.specs.Invariant.{IsSearch};

use crate::graph::Edge;
use crate::search::{Search, State, state_at};
use crate::steps::explore;
use clr_base::Memory;
use sqlite_items::Items;
use std::alloc::Global;

/// Which nodes go on, by a walk, into a closed walk with a marked edge. Node `n` has the edges of `graph[n]`, and
/// each edge is looked at twice at most.
pub fn closed_walks(alloc: Global, graph: &[Items<Edge>]) -> Result<Items<bool>, Memory>
    ensures { IfOk result (AreFound graph.now) }
{
    let mut search = Search::new(alloc, graph.len())?;
    for node in 0..graph.len() {
        visit(&mut search, graph, node)?;
    }
    answers(alloc, search.states.as_slice())
}

/// Explores a node, unless it was seen.
fn visit(search: &mut Search, graph: &[Items<Edge>], node: usize) -> Result<(), Memory>
    requires known { IsSearch graph.now search.old }
    requires idle { search.old.starts ≡ [] }
    ensures known { OnOk result (IsSearch graph.now search.new) }
    ensures idle { OnOk result (search.new.starts ≡ []) }
    ensures seen { OnOk result (spec.AllSeen search.old.states search.new.states node) }
{
    match state_at(search.states.as_slice(), node) {
        State::Unseen => explore(search, graph, node),
        State::Open(_) | State::Done(_) => Ok(()),
    }
}

/// What was found of each node.
fn answers(alloc: Global, states: &[State]) -> Result<Items<bool>, Memory>
    ensures { IfOk result (λ found. found ≡ map spec.answer states.now) }
{
    let mut found = Items::new(alloc);
    for state in states {
        found.push(matches!(state, State::Done(true)))?;
    }
    Ok(found)
}
