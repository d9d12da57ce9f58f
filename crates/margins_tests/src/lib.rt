//! Tests of margins, as they are printed and read.
#![tactic(auto)]

#[cfg(test)]
mod tests;
