//! Publishing the closure of a key on a board: its nodes, its records, its levels.
#![tactic(auto)]

mod laws;
mod laying;
mod levels;
mod nodes;
mod plan;
mod publishing;
mod records;

pub use laws::{asked_known, members_known};
pub use plan::{Member, Part};
pub use publishing::publish;
