//! The end of a part: what is found of its nodes.

ghost use Rattle.std.specs.Prelude.{◌≡◌, ◌<◌, ◌≤◌, ◌∷◌, ◌++◌, length, take, drop, IsTrue};
ghost use Rattle.std.specs.List.{list_any};
ghost use Rattle.closed_walks.specs.Search as spec;

use crate::graph::{Edge, edges_from};
use crate::search::{Search, State, set_state, state_at};
use sqlite_items::Items;

/// Whether an edge within a part, or out of it, shows that the part goes on into a closed walk with a marked edge.
fn edge_leads(states: &[State], edge: Edge) -> bool
    ensures { result ≡ spec.edge_leads states.now edge }
{
    match state_at(states, edge.to) {
        State::Unseen => false,
        State::Open(_) => edge.marked,
        State::Done(found) => found,
    }
}

fn any_edge_leads(states: &[State], edges: &[Edge]) -> bool
    ensures { result ≡ list_any (spec.edge_leads states.now) edges.now }
{
    for edge in edges {
        if edge_leads(states, *edge) {
            return true;
        }
    }
    false
}

fn any_leads(graph: &[Items<Edge>], states: &[State], nodes: &[usize]) -> bool
    ensures { result ≡ spec.part_leads graph.now states.now nodes.now }
{
    for node in nodes {
        if any_edge_leads(states, edges_from(graph, *node)) {
            return true;
        }
    }
    false
}

/// Takes the nodes from a place on off the path, and keeps what was found of them.
fn settle(states: &mut Items<State>, path: &mut Items<usize>, place: usize, found: bool)
    requires { place ≤ length path.old }
    ensures path { path.new ≡ take place path.old }
    ensures states { states.new ≡ spec.all_done found (drop place path.old) states.old }
{
    while path.len() > place {
        if let Some(node) = path.pop() {
            set_state(states, node, State::Done(found));
        }
    }
}

/// Closes the last part of the path, which starts at that place, and none of whose edges is pending.
pub(crate) fn close(search: &mut Search, graph: &[Items<Edge>], place: usize)
    requires within { place < length search.old.path }
    requires last { spec.EndsWith search.old.starts place }
    ensures { spec.IsClosed graph.now place search.old search.new }
{
    let found = any_leads(
        graph,
        search.states.as_slice(),
        &search.path.as_slice()[place..],
    );
    settle(&mut search.states, &mut search.path, place, found);
    search.starts.pop();
}
