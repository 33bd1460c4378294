//! What contracts see of a pass. No value of these types is made.

use load_events::Event;
use std::collections::LinkedList;

/// The events of a pass that was taken in, under its number.
pub struct Kept {
    pub number: u32,
    pub events: LinkedList<Event>,
}

/// What a pass stands for, whatever the loader.
pub struct PassView {
    /// Its number.
    pub number: u32,
    /// What it has seen of its loader's history, from the beginning on.
    pub front: LinkedList<Event>,
    /// Its own events.
    pub own: LinkedList<Event>,
    /// The events of the passes that it took in, by their numbers.
    pub kept: LinkedList<Kept>,
    /// The numbers that it drew, the last one first, and those that the passes which it took in drew.
    pub drawn: LinkedList<u32>,
    /// Those of them that no pass got, for want of memory.
    pub lost: LinkedList<u32>,
}
