//! Worlds of the core library and a few definitions behind it, made of tables, for tests.
#![tactic(auto)]

mod named;
mod rows;
mod worlds;

pub use named::{ARGUMENT, Named, OBJECT, STRING, plain, tree, wrap};
pub use rows::{
    ABSTRACT, ANY, CLASS, DefRow, FINAL, FIRST, FieldRow, FormalRow, ImplRow, MethodRow, NEW, PLAIN,
};
pub use worlds::world;
