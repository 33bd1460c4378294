//! Words that are set once, which threads share without a lock, and what each pass knows of them.
#![tactic(auto)]

mod board;
mod opening;
mod page;
mod passes;
mod places;
mod plays;
mod seat;
mod steps;
mod view;

pub use board::Board;
pub use page::{Meaning, Page};
pub use seat::Seat;
pub use view::{Draw, Fate, Mark, Name, Plan, View};
