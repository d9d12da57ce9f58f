//! The sides of a cell.

/// A side of a cell.
#[derive(Clone, Copy)]
pub enum Side {
    Above,
    Below,
    Left,
    Right,
}
