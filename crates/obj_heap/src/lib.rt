//! The heap of a job: objects as bytes, with what each byte is beside them (ECMA-335 I.8.9, I.12.1.6).
#![tactic(auto)]

mod address;
mod fault;
mod heap;
mod kinds;
mod laws;
mod made;
mod numbers;
mod room;

pub use address::{Address, ObjRef, PlaceKind};
pub use fault::HeapFault;
pub use heap::Heap;
pub use laws::{
    kinds_as_said, last_written, made_of, made_once, names_unseen, one_more, others_stay,
};
pub use room::HEAP_LIMIT;
