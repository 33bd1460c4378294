//! A graph as plain data: for each node the edges that go from it.

ghost use Rattle.std.specs.Prelude.{◌≡◌};
ghost use Rattle.closed_walks.specs.Walks as spec;

use sqlite_items::{Items, at};

/// An edge, which stands in the list of the node that it goes from. One that goes to no node leads nowhere.
#[derive(Clone, Copy)]
pub struct Edge {
    /// The node that it goes to.
    pub to: usize,
    /// Whether it is marked.
    pub marked: bool,
}

/// The edges that go from a node.
pub(crate) fn edges_from(graph: &[Items<Edge>], node: usize) -> &[Edge]
    ensures { result.now ≡ spec.edges_from graph.now node }
{
    match at(graph, node) {
        Some(edges) => edges.as_slice(),
        None => &[],
    }
}
