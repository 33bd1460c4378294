//! The definitions and members that the rows of files give, and the look-up of a member by its name and signature.
#![tactic(auto)]

mod definitions;
mod file_rows;
mod formals;
mod indexed_rows;
mod member_groups;
mod member_index;
mod member_table;
mod member_tables;
mod members;
mod open_method;
mod row_index;
mod signature_trees;

pub use definitions::{def_of, run_of};
pub use file_rows::FileRows;
pub use member_index::MemberIndex;
pub use member_table::{MemberTable, Run};
pub use member_tables::all_members;
pub use members::{field_in, method_in};
pub use open_method::{Open, open_of};
pub use row_index::RowIndex;
pub use signature_trees::{def_type, nothing, tree, trees, type_at_row};
