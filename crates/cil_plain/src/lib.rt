//! The instructions that ask a loader for nothing (ECMA-335 III.3, III.4), over the state of a job: those of the running
//! frame alone, and accesses to objects whose types were asked for before.
#![tactic(auto)]

mod access;
mod branches;
mod coding;
mod elements;
mod fields;
mod laws;
mod locals;
mod numbers;
mod op;
mod running;

pub use access::{load_at, made, store_at, type_of};
pub use coding::{branch_of, loaded_element, plain_of, stored_element};
pub use elements::{
    Indexed, load_element, load_length, pop_element, pop_element_store, store_element,
};
pub use fields::{load_field, pop_object, pop_store, store_field};
pub use laws::{accesses_see_no_name, instructions_see_no_name, stored_is_loaded};
pub use op::{Branch, Plain, Target};
pub use running::{local, plain};
