//! Tests of the top call over sources and sinks in memory.
#![tactic(auto)]

#[cfg(test)]
mod check;
#[cfg(test)]
mod plain;
#[cfg(test)]
mod runs;
#[cfg(test)]
mod tokens;
