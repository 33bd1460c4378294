//! The verdict of a key of a world.
#![tactic(auto)]

mod judging;
mod notes;
mod slots;
mod table;
mod tests;

pub use judging::{KeyFaults, judge};
pub use notes::Notes;
pub use table::ORDER;
