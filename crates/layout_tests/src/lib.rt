//! Tests of layouts: of worked types, and of each of the core library's.
#![tactic(auto)]

#[cfg(test)]
mod core_layouts;
#[cfg(test)]
mod layouts;
