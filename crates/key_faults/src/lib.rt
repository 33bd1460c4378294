//! Faults of keys, each by itself: by a key's form, by its definition and by its layout. What is told of
//! definitions is found once, and what is noted serves many keys.
#![tactic(auto)]

mod definitions;
mod heads;
mod laws;
mod layouts;
mod notes;
mod shapes;
mod told;

pub use definitions::{
    has_bad_interface, has_bad_parent, has_base_cycle, is_expanding, is_not_found,
    is_not_in_profile,
};
pub use heads::def_in;
pub use laws::{told_expanding, told_not_found, told_not_in_profile};
pub use layouts::{has_bad_layout, has_deep_layout};
pub use notes::Notes;
pub use shapes::{has_arity_fault, has_bad_argument};
pub use told::Told;
