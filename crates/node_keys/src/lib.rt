//! The keys of nodes that types and methods are.
#![tactic(auto)]

mod laws;

pub use laws::{key_of_each_spelling, one_key_of_a_spelling, spelled_as_deep, spelled_well};
