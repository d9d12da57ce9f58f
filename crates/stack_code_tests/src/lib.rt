//! Tests of which code is valid.
#![tactic(auto)]

#[cfg(test)]
mod tests;
