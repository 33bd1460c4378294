//! Events of a loader's history, and the words that stand for them.
#![tactic(auto)]

mod coding;
mod event;
mod laws;
mod load_fault;

pub use event::{Answer, Event};
pub use laws::one_event;
pub use load_fault::LoadFault;
