//! Several files: the metadata of all, or the first fault of the first of them that has one.
#![tactic(auto)]

mod counts;
mod images;
mod signatures;

pub use counts::Totals;
pub use images::{ImagesFault, read_images};
pub use signatures::row_sigs;
