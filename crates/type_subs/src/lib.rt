//! Which exact type is a sub of which, and which constraints of generic parameters arguments fail.
#![tactic(auto)]

mod canons;
mod constraints;
mod keys;
mod laws;
mod levels;
mod makers;
mod plain;
mod subs;
mod supers;

pub use canons::ConstraintNotes;
pub use keys::fails_constraint;
pub use laws::{sub_of_arrays, supers_by_closure};
pub use plain::{key_fails_constraint, sub_tree};
pub use subs::sub;
