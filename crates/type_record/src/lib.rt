//! Records of loaded types as lists of words, and back.
#![tactic(auto)]

mod entry;
mod entry_list;
mod front;
mod in_word;
mod interfaces;
mod laws;
mod loaded;
mod naming;
mod pairs;
mod reading;
mod shape;
mod writing;

pub use entry::Entry;
pub use entry_list::entries;
pub use front::{args_and_slots, form_and_size};
pub use in_word::{InWord, read_part};
pub use laws::{
    place_of_argument, place_of_field, place_of_interface, place_of_interface_slot, place_of_slot,
};
pub use loaded::{
    FieldOf, HandleList, InterfaceSlotList, Record, RecordField, RecordFieldList, SlotAt, SlotList,
    SlotOf, TypeRecord,
};
pub use naming::{Handles, record_of};
pub use pairs::HandlePairs;
pub use reading::read_record;
pub use shape::{Form, Shape};
pub use writing::record_words;
