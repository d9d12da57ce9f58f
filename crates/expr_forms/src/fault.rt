//! Why a piece has no form.

use std::alloc::AllocError;

/// Why no form was answered for a piece.
#[derive(Clone, Copy, Debug, PartialEq, Eq)]
pub enum PieceFault {
    /// More brackets are open at some place than a piece may have.
    TooDeep,
    /// The tokens have no form.
    NotUnderstood,
    Memory,
}

impl From<AllocError> for PieceFault {
    ghost use Rattle.std.specs.Prelude.{◌≡◌};
    ghost use Rattle.expr_forms.specs.declared.fault.PieceFault.TheVariants.{Memory};

    ghost from_gives = { λ _ e. e ≡ Memory };

    fn from(_: AllocError) -> PieceFault {
        PieceFault::Memory
    }
}
