//! Tests of boards: their words, their passes, the nodes in their cells and the events in their journals,
//! and the slots of their layouts and dictionaries, with threads.
#![tactic(auto)]

#[cfg(test)]
mod events;
#[cfg(test)]
mod journal_threads;
#[cfg(test)]
mod node_threads;
#[cfg(test)]
mod nodes;
#[cfg(test)]
mod pages;
#[cfg(test)]
mod slots;
#[cfg(test)]
mod words;
