//! The journal of a board: events at places, each set after all lower ones, so that they are one list.
#![tactic(auto)]

mod history;
mod journal;
mod laws;

pub use history::{add, walk};
pub use journal::Journal;
pub use laws::{front_legal, one_list, places_below};
