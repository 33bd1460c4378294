//! What stands in the closure of a good key: types with their chains of parents, their interfaces and their supers.
#![tactic(auto)]

mod laws;
mod members;

pub use laws::{chain_by_parent, chain_in_closure, interfaces_in_closure, supers_of_good};
pub use members::{arguments_in_closure, faultless_closure, member_stands};
