//! Tests of the Robot on its field, and of field texts.
#![tactic(auto)]

#[cfg(test)]
mod tests;
