//! What types and methods stand on directly, over a pool: parents and interfaces; direct members.
#![tactic(auto)]

mod contents;
mod exact;
mod faults;
mod heads;
mod lists;
mod members;
mod supers;

pub use contents::is_value;
pub use exact::bases;
pub use faults::Faults;
pub use heads::Head;
pub use members::{MemberNotes, Members};
pub use supers::Supers;
