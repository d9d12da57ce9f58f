//! Tests of lines cut into tokens.
#![tactic(auto)]

#[cfg(test)]
mod tests;
