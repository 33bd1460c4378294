//! One file: the checks of its rows and signatures behind those of its headers and tables, and what rows that pass them say.
#![tactic(auto)]

mod bit_notes;
mod blobs;
mod cells;
mod columns;
mod definition_names;
mod image;
mod laws;
mod member_runs;
mod nesting;
mod ref_names;
mod refusal;
mod row_rules;
mod rows;
mod signature_checks;
mod table_numbers;

pub use blobs::{FIELD_CODE, LOCALS_CODE, begins_with, row_counts, value_or};
pub use cells::{RowOf, blob, blob_by, coded, text, text_by};
pub use definition_names::full_names;
pub use image::{read_image, read_tables};
pub use laws::type_names_are_texts;
pub use member_runs::{before_run, loose, owners, run_len};
pub use nesting::enclosing_rows;
pub use ref_names::{MOST_SCOPES, name_of_ref, scope};
pub use refusal::Refusal;
pub use rows::token;
pub use table_numbers::{
    ASSEMBLY, ASSEMBLY_REF, CLASS_LAYOUT, FIELD, FIELD_LAYOUT, FIELD_LIST, GENERIC_PARAM,
    GENERIC_PARAM_CONSTRAINT, INTERFACE_IMPL, MEMBER_REF, METHOD_DEF, METHOD_IMPL, METHOD_LIST,
    METHOD_SPEC, MODULE, STAND_ALONE_SIG, TYPE_DEF, TYPE_REF, TYPE_SPEC,
};
