//! Tests of pieces and units over lines of text.
#![tactic(auto)]

#[cfg(test)]
mod tests;
