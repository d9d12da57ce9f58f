//! Sources and sinks of bytes.

ghost use Rattle.std.specs.Prelude.{◌≡◌, ◌<◌, ◌≤◌, length, take, IfOk, OnErr};
ghost use Rattle.std.specs.Io.KnownBytes.{IsAtEnd};
ghost use Rattle.km_ports.specs.declared.port.PutFault.TheVariants.{Memory};
ghost use Rattle.km_ports.specs.Ports.{SourceState, SinkState, TakesFrom, PutsInto, CountsTake, CountsPut};

use km_base::Memory;
use std::alloc::AllocError;

/// A source could not be read.
#[derive(Clone, Copy, Debug, PartialEq, Eq)]
pub struct Failed;

/// Why a sink took nothing.
#[derive(Clone, Copy, Debug, PartialEq, Eq)]
pub enum PutFault {
    /// The sink could not be written.
    Failed,
    /// Want of memory.
    Memory,
}

impl From<AllocError> for PutFault {
    ghost from_gives = { λ _ fault. fault ≡ Memory };

    fn from(_refused: AllocError) -> PutFault {
        PutFault::Memory
    }
}

impl From<Memory> for PutFault {
    ghost from_gives = { λ _ fault. fault ≡ Memory };

    fn from(_refused: Memory) -> PutFault {
        PutFault::Memory
    }
}

/// Where bytes come from.
pub trait Source {
    /// What the source tells: the bytes still to come, always or never, and how many of its calls failed.
    ghost state: { Self → SourceState };

    /// Writes the next bytes to the beginning of `piece` and answers how many those are. None on a piece that is not
    /// empty is the end of the input; on an empty piece none is the only number. What stands in `piece` behind them
    /// is not said. `Failed` takes nothing.
    fn take(&mut self, piece: &mut [u8]) -> Result<usize, Failed>
        ensures within { IfOk result (λ count. count ≤ length piece.new) }
        ensures bytes { IfOk result (λ count. TakesFrom (state self.old) (state self.new) (take count piece.new)) }
        ensures end { IfOk result (λ count. count ≡ 0 → 0 < length piece.new → IsAtEnd (state self.old).left) }
        ensures unchanged { OnErr result ((state self.new).left ≡ (state self.old).left) }
        ensures later { (state self.old).faults ≤ (state self.new).faults }
        // The count rose exactly where `Failed` is answered.
        ensures cause { CountsTake (state self.old) (state self.new) result };
}

/// Where bytes go.
pub trait Sink {
    /// What the sink tells: the bytes that it was given, always or never, and how many of its calls failed.
    ghost state: { Self → SinkState };

    /// Appends the first bytes of `piece` and answers how many those are: at least one, unless the piece is empty;
    /// of an empty piece none. `Failed` and `Memory` append nothing.
    fn put(&mut self, piece: &[u8]) -> Result<usize, PutFault>
        ensures within { IfOk result (λ count. count ≤ length piece.now) }
        ensures some { IfOk result (λ count. 0 < length piece.now → 0 < count) }
        ensures bytes { IfOk result (λ count. PutsInto (state self.old) (state self.new) (take count piece.now)) }
        ensures unchanged { OnErr result ((state self.new).written ≡ (state self.old).written) }
        ensures later { (state self.old).faults ≤ (state self.new).faults }
        // The count rose exactly where `Failed` is answered.
        ensures cause { CountsPut (state self.old) (state self.new) result };
}
