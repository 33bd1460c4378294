//! Files become a world: the checks of files one after another, what references to members name, signatures, tokens, roots,
//! and the whole.
#![tactic(auto)]

mod bodies;
mod building;
mod entries;
mod file_definitions;
mod file_signatures;
mod file_tokens;
mod file_worlds;
mod local_signatures;
mod member_refs;
mod method_impls;
mod method_specs;
mod named_members;
mod reader;
mod references;
mod root_laws;
mod roots;
mod row_signatures;
mod world_laws;
mod worlds;

pub use building::{BuildFault, build};
pub use root_laws::{no_world_of_an_unnamed_word, one_root_of_a_word, one_world_of_roots};
pub use roots::{NamedRoot, RootForm, RootsFault, with_roots};
pub use world_laws::definitions_called_by_their_rows;
