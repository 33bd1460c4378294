//! The closure of a key: all that it needs, listed within bounds.
#![tactic(auto)]

mod closing;
mod laws;
mod needs;

pub use closing::closure;
pub use laws::{closure_least, closure_once, closure_or_too_large};
pub use needs::Needs;
