//! Numbers in their one decimal spelling.
#![tactic(auto)]

mod laws;
mod read;
#[cfg(test)]
mod tests;

pub use laws::{printed_is_read, read_is_printed};
pub use read::{read_number, read_whole, read_wide};
