//! Tests of records in rows: two classes, each in the closure of the other, that threads publish.
#![tactic(auto)]

mod circle;
mod classes;
#[cfg(test)]
mod threads;

pub use circle::circle_fits;
pub use classes::Classes;
