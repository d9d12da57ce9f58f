//! Tests of actors that are driven, of gates and of messages.
#![tactic(auto)]

#[cfg(test)]
mod counter;
#[cfg(test)]
mod tests;
