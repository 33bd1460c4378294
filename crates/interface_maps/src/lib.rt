//! Which methods answer the methods of the interfaces of type definitions.
#![tactic(auto)]

mod answers;
mod choices;
mod inherited;
mod knowing;
mod known;
mod maps;
mod members;
mod publics;
mod rows;
mod verdicts;
mod walk;

pub use answers::Interface;
pub use maps::{MapLevel, MapNotes};
pub use verdicts::{MapAnswer, interface_map, interface_map_in, slots, slots_in};
pub use walk::map_of;
