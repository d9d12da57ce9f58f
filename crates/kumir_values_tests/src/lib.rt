//! Tests of arithmetic, of printed values and of tables.
#![tactic(auto)]

#[cfg(test)]
mod tests;
