//! The top call: what the words of a command line ask for, from the files' bytes to the bytes written.
#![tactic(auto)]

mod command;
mod fetch;
mod lines;
mod names;
mod status;
mod top;

pub use status::{Outcome, Status};
pub use top::{clr, clr_quiet};
