//! Tests of analyses and of what they keep.
#![tactic(auto)]

#[cfg(test)]
mod tests;
