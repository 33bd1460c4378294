//! The verdict of a key, whatever faults keys have by themselves.
#![tactic(auto)]

mod judging;
mod laws;
mod local;
mod verdict;

pub use judging::{Judged, judge_in};
pub use laws::one_verdict;
pub use local::{Local, LocalFaults};
pub use verdict::{Verdict, verdict_of};
