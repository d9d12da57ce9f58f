//! Tests of forms over lines of text.
#![tactic(auto)]

#[cfg(test)]
mod forms;
