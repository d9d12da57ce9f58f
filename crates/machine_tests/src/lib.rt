//! Tests of the machine over code written by hand.
#![tactic(auto)]

#[cfg(test)]
mod codes;
#[cfg(test)]
mod runs;
#[cfg(test)]
mod story;
