//! Tests of names and types over trees.
#![tactic(auto)]

#[cfg(test)]
mod programs;
#[cfg(test)]
mod rules;
