//! The tables and heaps of CLI metadata (ECMA-335 II.22, II.24).
#![tactic(auto)]

mod cells;
mod heaps;
mod layout;
mod root;
mod schema;
mod streams;
mod tables;
mod text_faults;
mod widths;

pub use schema::{CODED_TABLES, CodedIndex, Column, TABLE_COUNT, TABLES, TAG_BITS, columns_of};
pub use tables::Tables;
pub use text_faults::TextFaults;
pub use widths::width_of;
