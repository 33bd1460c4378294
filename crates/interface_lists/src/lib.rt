//! The interfaces of type definitions.
#![tactic(auto)]

mod declared;
mod listed;
mod lists;
mod walk;

pub use declared::head_of;
pub use lists::{inherited, interface_list, list_of};
pub use walk::own_list;
