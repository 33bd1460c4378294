//! Which type definitions expand: the sets of types that they need are without end (ECMA-335 II.9.2).
#![tactic(auto)]

mod answers;
mod formals;
mod graph;
mod links;
mod rows;
mod variables;

pub use answers::{expanding, expands};
