//! Kinds of values, modes of parameters and operators.

/// The kind of a value. A later stage has more of them.
#[derive(Clone, Copy, Debug, PartialEq, Eq)]
pub enum Kind {
    Whole,
    Truth,
}

impl Kind {
    ghost use Rattle.std.specs.Prelude.{◌≡◌};
    ghost use Rattle.kumir_tree.specs.Kinds.{same_kind};

    /// Whether it is this kind.
    pub fn is(self, other: Kind) -> bool
        ensures { result ≡ same_kind self other }
    {
        match (self, other) {
            (Kind::Whole, Kind::Whole) | (Kind::Truth, Kind::Truth) => true,
            (Kind::Whole, Kind::Truth) | (Kind::Truth, Kind::Whole) => false,
        }
    }
}

/// How a parameter is passed.
#[derive(Clone, Copy, Debug, PartialEq, Eq)]
pub enum Mode {
    Arg,
    Res,
    ArgRes,
}

/// An operator with two sides.
#[derive(Clone, Copy, Debug, PartialEq, Eq)]
pub enum Op {
    Or,
    And,
    Equal,
    NotEqual,
    Less,
    Greater,
    LessOrEqual,
    GreaterOrEqual,
    Plus,
    Minus,
    Times,
    Power,
}
