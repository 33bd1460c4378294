//! Tests alone, where neither a clause nor an example reaches: the edge to the system, what fails outside, and the writer.
#![tactic(auto)]

#[cfg(test)]
mod edge;
#[cfg(test)]
mod outside;
#[cfg(test)]
mod smallest;
#[cfg(test)]
mod writer;
