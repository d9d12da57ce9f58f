//! Tests of the command table.
#![tactic(auto)]

#[cfg(test)]
mod tests;
