//! Where the fields of a type stand, given what each takes (ECMA-335 II.10.1.2, II.10.7).
#![tactic(auto)]

mod explicit;
mod in_order;
mod laws;
mod layout;
mod own;
mod shape;

pub use explicit::Span;
pub use laws::{
    fields_are_aligned, fields_are_covered, fields_stand_apart, fields_stand_least,
    references_stand_apart, sizes_are_whole,
};
pub use layout::{Layout, OffsetList, Rules};
pub use own::own_part;
pub use shape::{Arrangement, Content, LIMIT, Shape};
