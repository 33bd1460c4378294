//! A set of nodes in the cells of a board: each node stands in one cell, whichever threads put it.
#![tactic(auto)]

mod laws;
mod node;
mod nodes;
mod probing;

pub use laws::{key_spelled, one_cell, one_handle, one_key, told_once};
pub use node::Node;
pub use nodes::Nodes;
pub use probing::{Cell, put, seek};
