//! The virtual slots of type definitions: how methods match, and which numbers they take.
#![tactic(auto)]

mod entries;
mod handing;
mod laws;
mod numbers;
mod open_set;
mod opens;
mod parents;
mod virtuals;

pub use entries::SlotEntry;
pub use handing::hand_on;
pub use laws::slots_of_the_parent_stay;
pub use numbers::{Virtual, slot_numbers};
pub use open_set::OpenSet;
pub use opens::{OpenMethod, open_method, put_in, put_in_all, same_open};
pub use parents::{arguments_of, is_interface, parent_def};
pub use virtuals::{own_numbers, takes_slot};
