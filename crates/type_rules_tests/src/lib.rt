//! Tests of headers and of what a name stands for.
#![tactic(auto)]

#[cfg(test)]
mod tests;
