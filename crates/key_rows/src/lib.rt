//! Records and levels of keys as words in the rows of a board.
#![tactic(auto)]

mod filling;
mod laws;
mod reading;
mod rows;

pub use filling::{fill, put_row};
pub use laws::{level_kept, loaded_whole, still_known, word_exact};
pub use reading::{read_entry, read_handle, read_level, read_number};
pub use rows::Rows;
