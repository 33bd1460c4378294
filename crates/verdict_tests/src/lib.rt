//! Tests of faults of definitions and of keys, and of verdicts.
#![tactic(auto)]

#[cfg(test)]
mod faults;
#[cfg(test)]
mod judged;
#[cfg(test)]
mod verdicts;
