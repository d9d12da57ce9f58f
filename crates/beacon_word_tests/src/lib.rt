//! Tests of beacons between two threads.
#![tactic(auto)]

#[cfg(test)]
mod tests;
