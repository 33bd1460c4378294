//! Legal histories of a loader, and their laws.
#![tactic(auto)]

mod laws;
mod verdicts;

pub use laws::{
    answered_once, first_once, last_event, latest_of_a_caller, loaded_good, more_names, next_event,
    prefix_legal,
};
pub use verdicts::{Names, Verdicts};
