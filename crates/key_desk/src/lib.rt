//! The keys of a world by numbers: what a signature asks for in a context, its verdict, its method table.
#![tactic(auto)]

mod desk;
mod found;
mod work;

pub use desk::Desk;
pub use found::Found;
