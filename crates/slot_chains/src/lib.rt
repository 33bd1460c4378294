//! The virtual slots of type definitions, found along their chains of parents.
#![tactic(auto)]

mod answers;
mod chains;
mod handing;
mod levels;
mod notes;
mod own;
mod rows;
mod walk;

pub use answers::{SlotAnswer, slot_number, slot_number_in, slots_at};
pub use chains::chain_within;
pub use levels::Level;
pub use notes::Notes;
pub use rows::{number_in, owns};
pub use walk::level_of;
