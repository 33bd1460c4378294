//! Signature blobs (ECMA-335 II.23.2): what a field, method, list of locals, TypeSpec or MethodSpec says of types.
#![tactic(auto)]

mod checks;
mod compressed;
mod element;
mod fault;
mod marks;
mod past;
mod readers;
mod signature;
mod types;

pub use checks::{
    check_field, check_method, check_method_spec, check_type_spec, count_locals, told_locals,
};
pub use fault::SigFault;
pub use readers::{read_field, read_locals, read_method, read_method_spec, read_type_spec};
pub use signature::{RowCounts, SigMethod, SigTy, SigTyList};
