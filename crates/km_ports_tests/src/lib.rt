//! Tests of sources, sinks and statuses.
#![tactic(auto)]

#[cfg(test)]
mod tests;
