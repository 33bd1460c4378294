//! Tests of types: trees that stand once in a pool, closures of keys, and subs and constraints.
#![tactic(auto)]

#[cfg(test)]
mod members;
#[cfg(test)]
mod pools;
#[cfg(test)]
mod subs;
