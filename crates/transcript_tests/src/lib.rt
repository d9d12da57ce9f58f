//! Tests of entries as lines, and of transcripts read.
#![tactic(auto)]

#[cfg(test)]
mod tests;
