//! What breaks off an analysis.

ghost use Rattle.std.specs.Prelude.{◌≡◌, List, ℕ, []};
ghost use Rattle.incr_analysis.specs.Stops.{SeesMore};

/// Tells of newer versions while an analysis goes on.
pub trait Stop {
    /// The numbers that it has seen.
    ghost seen: { Self → List ℕ };

    /// Plain data that names what it looks at.
    ghost name: { Self → List ℕ };

    /// The number of a newer version, if there is one. It is one of the numbers that were seen in this call.
    fn newer(&mut self) -> Option<u32>
        ensures seen { SeesMore (seen self.old) (seen self.new) result }
        ensures name { name self.new ≡ name self.old };
}

/// Never tells of a newer version.
#[derive(Clone, Copy, Debug)]
pub struct NeverStop;

impl Stop for NeverStop {
    ghost seen = { λ s. [] };

    ghost name = { λ s. [] };

    fn newer(&mut self) -> Option<u32> {
        None
    }
}
