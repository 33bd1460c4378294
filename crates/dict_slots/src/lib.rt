//! The layouts and dictionaries of a board: a signature's slot in the layout of a canonical key,
//! and the handle that fills the slot in the dictionary of an exact key.
#![tactic(auto)]

mod dictionary;
mod laws;
mod seeking;
mod slots;
mod taking;

pub use dictionary::{fill, read, segment};
pub use laws::{
    filling_told_once, one_filling, one_signature, one_slot, slots_before, slots_told_once,
};
pub use seeking::seek_slot;
pub use slots::Slots;
pub use taking::slot_of;
