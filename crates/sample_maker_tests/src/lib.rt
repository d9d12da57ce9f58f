//! Tests of samples and their summaries.
#![tactic(auto)]

#[cfg(test)]
mod tests;
