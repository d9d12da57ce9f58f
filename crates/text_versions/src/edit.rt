//! Edits of a text.

use kumir_tree::Lines;

/// Puts lines in the place of `count` lines from line `from` on, counted from 1.
#[derive(Debug, Drop)]
pub struct Edit {
    pub from: u32,
    pub count: u32,
    pub lines: Lines,
}
