//! An actor that counts, and a gate that keeps what passed it.

ghost use Rattle.std.specs.Prelude.{◌≡◌, ◌+◌};

use actor_kit::{Actor, Gate, Place, Turn, drive};
use km_base::Count;
use std::cell::Cell;
use std::sync::Wait;

/// Lets its outside rise once for each number from `left` down to 1, and passes the gate before. After each it is idle for a
/// turn.
#[derive(Drop)]
pub struct Counter {
    left: u32,
    rests: bool,
}

impl Actor for Counter {
    ghost use Rattle.std.proofs.Common.{refl};
    ghost use Rattle.actor_kit_tests.specs.Counting.{Counts, CountsBecause};

    type Outside = Count;

    ghost law = { λ first first_count now count. Counts first.left first_count now.left count };

    ghost cause = { λ turn before _ after _. CountsBecause turn before.left before.rests after.left after.rests };

    fn turn<R: Wait, G: Gate>(&mut self, _rt: &R, count: &mut Count, gate: &G) -> Turn {
        if self.rests {
            self.rests = false;
            return Turn::Idle;
        }
        if self.left == 0 {
            return Turn::Ended;
        }
        gate.pass(Place::Output { run: self.left });
        count.rise();
        self.left -= 1;
        self.rests = true;
        Turn::Worked
    }

    ghost law_starts = { λ _ _. refl };
}

/// Counts from `most` down to 1.
pub fn count_down<R: Wait, G: Gate>(rt: &R, gate: &G, most: u32, count: &mut Count)
    ensures { count.new ≡ count.old + most }
{
    let mut counter = Counter {
        left: most,
        rests: false,
    };
    drive(rt, &mut counter, count, gate);
}

/// How often it was passed, and the last place.
#[derive(Drop)]
pub struct Watch {
    pub passes: Cell<u32>,
    pub last: Cell<Place>,
}

impl Gate for Watch {
    fn pass(&self, place: Place) {
        self.passes.set(self.passes.get().saturating_add(1));
        self.last.set(place);
    }
}
