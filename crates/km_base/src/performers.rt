//! The performers that a program can command.

/// A performer.
#[derive(Clone, Copy, Debug, PartialEq, Eq)]
pub enum Performer {
    /// `Робот`, on its field of cells.
    Robot,
    /// `Чертежник`, the Draughtsman with its pen.
    Pen,
}

/// The performers that a program makes known.
#[derive(Clone, Copy, Debug, PartialEq, Eq)]
pub struct Performers {
    pub robot: bool,
    pub pen: bool,
}
