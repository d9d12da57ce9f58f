//! Why a program is not without fault.

use km_base::Memory;
use margins::Margin;

/// The margin, which has marks; or want of memory.
#[derive(Debug, Drop)]
pub enum CleanRefusal {
    Faults(Margin),
    Memory,
}

impl From<Memory> for CleanRefusal {
    ghost use Rattle.std.specs.Prelude.{◌≡◌};
    ghost use Rattle.type_check.specs.declared.refusal.CleanRefusal.TheVariants.{Memory};

    ghost from_gives = { λ _ e. e ≡ Memory };

    fn from(_refused: Memory) -> CleanRefusal {
        CleanRefusal::Memory
    }
}
