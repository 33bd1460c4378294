//! Tests of the machine's rooms: a heap that is full, and workers that ask for one body.
#![tactic(auto)]

#[cfg(test)]
mod bodies;
#[cfg(test)]
mod one_method;
#[cfg(test)]
mod sizes;
