//! The table of method bodies: each is decoded at its first call, and kept for all threads.
#![tactic(auto)]

mod kept;
mod lent;
mod place;
mod table;

pub use lent::Lent;
pub use place::Place;
pub use table::CodeTable;
