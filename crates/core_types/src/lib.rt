//! The types of the core library as data, and names that are kept once.
#![tactic(auto)]

mod core_parts;
mod core_rows;
mod core_table;
mod core_type;
mod names;

pub use core_parts::{CoreParts, core_library, plain};
pub use core_rows::core_name;
pub use core_table::{DEF_COUNT, METHOD_COUNT, NAME_COUNT};
pub use core_type::CoreType;
pub use names::Names;
