//! What a loaded type or method is: its method table, over a pool.
#![tactic(auto)]

mod backs;
mod fields;
mod fronts;
mod notes;
mod numbers;
mod parts;
mod slots;
mod tables;
mod types;

pub use notes::TableNotes;
pub use tables::method_table;
