//! Tests of links between two threads.
#![tactic(auto)]

#[cfg(test)]
mod tests;
