//! Tests of texts and their versions.
#![tactic(auto)]

#[cfg(test)]
mod changes;
#[cfg(test)]
mod chunks;
#[cfg(test)]
mod limits;
#[cfg(test)]
mod tests;
#[cfg(test)]
mod texts;
