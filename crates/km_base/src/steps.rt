//! Steps of a kind of work.

ghost use Rattle.std.specs.Prelude.{◌≡◌, ◌+◌};

use crate::noted::Count;
use std::marker::{Model, PhantomData};

/// Names a kind of work whose steps are counted. It has no functions.
pub trait Ledger {}

/// Work whose steps nobody reads off.
pub struct Uncounted;

impl Ledger for Uncounted {}

/// How many steps of one kind of work were taken. It takes no bytes at run time and has no last value.
#[derive(Drop)]
pub struct Steps<L: Ledger> {
    taken: Count,
    ledger: PhantomData<L>,
}

impl<L: Ledger> Model for Steps<L> {
    ghost use Rattle.std.specs.Prelude.{ℕ};

    ghost Value = { ℕ };

    ghost view = { λ s. s.taken };
}

impl<L: Ledger> Steps<L> {
    /// A counter at 0.
    pub fn new() -> Steps<L>
        ensures { result ≡ 0 }
    {
        Steps {
            taken: Count::new(),
            ledger: PhantomData,
        }
    }

    /// Counts one step.
    pub fn tick(&mut self)
        ensures { self.new ≡ self.old + 1 }
    {
        self.taken.rise();
    }
}
