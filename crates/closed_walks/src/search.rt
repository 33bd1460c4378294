//! What a search of a graph in depth keeps: the path of open nodes, cut into parts in which each node leads to
//! each other, and the edges of open nodes that were not followed yet.

ghost use Rattle.std.specs.Prelude.{◌≡◌, ◌<◌, ◌≤◌, [], ◌∷◌, ◌++◌, map, IfOk, OnOk, MatchOption, replicate, length, slice_set};
ghost use Rattle.closed_walks.specs.Search as spec;

use crate::graph::Edge;
use clr_base::Memory;
use sqlite_items::Items;
use std::alloc::Global;

/// What the search knows of a node.
#[derive(Clone, Copy)]
pub(crate) enum State {
    /// Nothing yet.
    Unseen,
    /// It stands at this place of the path.
    Open(usize),
    /// Whether it goes on into a closed walk with a marked edge.
    Done(bool),
}

/// An edge that was not followed yet, and the place of its node on the path.
#[derive(Clone, Copy)]
pub(crate) struct Pending {
    pub at: usize,
    pub edge: Edge,
}

#[derive(Drop)]
pub(crate) struct Search {
    /// What is known of each node.
    pub states: Items<State>,
    /// The open nodes. Each leads to all later ones.
    pub path: Items<usize>,
    /// The places at which the parts of the path start.
    pub starts: Items<usize>,
    /// The edges of open nodes that were not followed yet, those of later nodes last.
    pub pending: Items<Pending>,
}

impl Search {
    /// A search that has seen nothing.
    pub(crate) fn new(alloc: Global, nodes: usize) -> Result<Search, Memory>
        ensures { IfOk result (λ s. s ≡ spec.begun nodes) }
    {
        let states = vec![in alloc; State::Unseen; nodes]?;
        Ok(Search {
            states: Items::from_vec(states),
            path: Items::new(alloc),
            starts: Items::new(alloc),
            pending: Items::new(alloc),
        })
    }
}

/// What is known of a node.
pub(crate) fn state_at(states: &[State], node: usize) -> State
    ensures { result ≡ spec.state_at states.now node }
{
    if node < states.len() {
        states[node]
    } else {
        State::Done(false)
    }
}

/// Keeps what is known of a node now.
pub(crate) fn set_state(states: &mut Items<State>, node: usize, state: State)
    ensures { states.new ≡ slice_set states.old node state }
{
    if node < states.len() {
        states.set(node, state);
    }
}

/// The last number of a list.
pub(crate) fn last(list: &[usize]) -> Option<usize>
    ensures { MatchOption result (list.now ≡ []) (spec.EndsWith list.now) }
{
    let count = list.len();
    if count == 0 {
        None
    } else {
        Some(list[count - 1])
    }
}

/// Takes the last pending edge, if its node stands at `start` or behind it.
pub(crate) fn pop_pending(list: &mut Items<Pending>, start: usize) -> Option<Pending>
    ensures { MatchOption result ((list.new ≡ list.old) × spec.EndsBelow start list.old) (λ last. (list.old ≡ list.new ++ last ∷ []) × (start ≤ last.at)) }
{
    let count = list.len();
    if count == 0 || list.as_slice()[count - 1].at < start {
        return None;
    }
    list.pop()
}

/// Adds all edges of the node at a place.
pub(crate) fn push_pending(
    list: &mut Items<Pending>,
    at: usize,
    edges: &[Edge],
) -> Result<(), Memory>
    ensures { OnOk result (list.new ≡ list.old ++ map (spec.pending_at at) edges.now) }
{
    for edge in edges {
        list.push(Pending { at, edge: *edge })?;
    }
    Ok(())
}
