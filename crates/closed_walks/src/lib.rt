//! Which nodes of a graph go on into a closed walk with a marked edge.
#![tactic(auto)]

mod graph;
mod search;
mod settling;
mod steps;
mod walks;

pub use graph::Edge;
pub use walks::closed_walks;
