//! Which definition each reference to a type names, and what the rows of files are called.
#![tactic(auto)]

mod assemblies;
mod core_texts;
mod def_numbers;
mod definitions_by_name;
mod file_names;
mod resolution;
mod resolve;
mod scopes;
mod text_numbers;
mod type_finder;
mod type_keys;
mod type_rows;
mod type_texts;
mod world_names;

pub use file_names::FileNames;
pub use resolution::DefPlace;
pub use resolve::resolve_files;
pub use type_rows::{Target, TypeRows};
pub use world_names::{WorldNames, name_files};
