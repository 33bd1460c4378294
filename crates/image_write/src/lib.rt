//! Drafts of assemblies, and the images that they are written as (PE Format; ECMA-335 II.22 to II.25).
#![tactic(auto)]

mod draft;
mod fitting;
mod headers;
mod layout;
mod metadata;
mod pieces;
mod rows;
mod write;
mod write_fault;

pub use draft::{CellList, Draft, TableList};
pub use write::write_image;
pub use write_fault::WriteFault;
