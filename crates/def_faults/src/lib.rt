//! The faults of type definitions that depend on the definition alone, found once for each definition of a
//! world.
#![tactic(auto)]

mod chains;
mod faults;
mod interfaces;
mod kinds;
mod missing;
mod notes;
mod parents;
mod profile;

pub use faults::{DefFaults, def_faults};
