//! What every crate above speaks of: numbers of things, refusals, ordered checks, and the outside.
#![tactic(auto)]

mod checked;
mod failures;
mod gate;
mod ids;
mod image_fault;
mod lines;
mod lists;
mod little_endian;
mod memory;
mod outside;
mod real;

pub use checked::check;
pub use failures::{HistoryFull, Memory, TableFull};
pub use gate::{Gate, OpenGate};
pub use ids::{
    CORE_DEF_COUNT, CORE_METHOD_COUNT, CORE_SIG_COUNT, DefId, FieldId, Handle, MethId, NameId,
    SigId,
};
pub use image_fault::{FaultKind, ImageFault};
pub use lines::{Piece, put_all, put_pieces};
pub use lists::{Bytes, Text};
pub use little_endian::{read_u16, read_u32, read_u64};
pub use memory::{MemFile, MemShelf, MemSink};
pub use outside::{Failed, FetchFault, Shelf, Sink};
pub use real::{FileShelf, StreamSink};
