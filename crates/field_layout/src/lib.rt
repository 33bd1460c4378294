//! The layout of a type: where its own instance fields stand, where they end, how large it is and how it is
//! aligned (ECMA-335 II.10.1.2, II.10.7).
#![tactic(auto)]

mod answer;
mod classes;
mod core_widths;
mod ends;
mod fields;
mod known;
mod laws;
mod level;
mod notes;
mod own_fields;
mod top;
mod walk;

pub use answer::{LayoutAnswer, ShapeAnswer};
pub use known::Notes;
pub use laws::{
    classes_begin_past_parents, fields_are_aligned, fields_have_offsets, fields_stand_apart,
    fields_stand_least, references_stand_apart, sizes_cover_fields,
};
pub use notes::Note;
pub use top::{layout, layout_in};
