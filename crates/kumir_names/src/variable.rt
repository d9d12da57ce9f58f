//! Variables.

use kumir_tree::Kind;

/// A variable: its kind and the number of its bounds, 0 where it is no table.
#[derive(Clone, Copy, Debug, PartialEq, Eq)]
pub struct Variable {
    pub kind: Kind,
    pub bounds: usize,
}
