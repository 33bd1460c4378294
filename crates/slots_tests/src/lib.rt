//! Tests of virtual slots, and of what answers the methods of interfaces.
#![tactic(auto)]

#[cfg(test)]
mod chains;
#[cfg(test)]
mod maps;
#[cfg(test)]
mod slots;
