//! Tests of long lists of statements, of deep expressions, and of lines.
#![tactic(auto)]

#[cfg(test)]
mod tests;
