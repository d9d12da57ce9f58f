//! Actors and their turns.

ghost use Rattle.std.specs.Prelude.{◌≡◌};
ghost use Rattle.actor_kit.specs.declared.actor.Turn.TheVariants.{Ended};

use crate::gate::Gate;
use crossbeam_utils::Backoff;
use std::sync::Wait;

/// What a turn came to.
#[derive(Clone, Copy, Debug, PartialEq, Eq)]
pub enum Turn {
    /// The actor got on.
    Worked,
    /// The actor found no room for what it has to send, or nothing where it waits for something to come.
    Idle,
    /// The actor has sent its last items, and has nothing more to do.
    Ended,
}

/// An actor, which takes and sends in turns.
pub trait Actor {
    ghost use Rattle.std.specs.Prelude.{◌≡◌};
    ghost use Rattle.actor_kit.specs.declared.actor.Turn.{Turn};

    /// What it reads from or writes to beside its links and beacons.
    type Outside;

    /// The law of the actor: how it and its outside stand now, by how both stood before the first turn.
    ghost law: { Self → Self.Outside → Self → Self.Outside → Type 0 };

    /// Why a turn comes to what it does, by how the actor and its outside stood before it and stand after it.
    ghost cause: { Turn → Self → Self.Outside → Self → Self.Outside → Type 0 };

    /// Does one thing. Each turn keeps the law, and what it answers has its cause.
    fn turn<R: Wait, G: Gate>(&mut self, rt: &R, outside: &mut Self::Outside, gate: &G) -> Turn
        ensures law { (first : Self) (first_outside : Self.Outside)
            → law first first_outside self.old outside.old → law first first_outside self.new outside.new }
        ensures cause { cause result self.old outside.old self.new outside.new };

    /// The law holds where no turn was taken.
    ghost law_starts: { (actor : Self) (outside : Self.Outside) → law actor outside actor outside };
}

/// Takes turns until one answers `Ended`, and waits a little after each that is idle. The law is kept over all of them.
pub fn drive<A: Actor, R: Wait, G: Gate>(rt: &R, actor: &mut A, outside: &mut A::Outside, gate: &G)
    ensures law { A.law actor.old outside.old actor.new outside.new }
    ensures ended { (before : A) × (outside_before : A.Outside)
        × A.cause Ended before outside_before actor.new outside.new }
{
    let backoff = Backoff::new();
    for _ in rt.forever() {
        match actor.turn(rt, outside, gate) {
            Turn::Worked => backoff.reset(),
            Turn::Idle => backoff.snooze(),
            Turn::Ended => return,
        }
    }
    unreachable!()
}
