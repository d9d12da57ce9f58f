//! The Draughtsman's actor.

ghost use Rattle.std.specs.Prelude.{◌≡◌};
ghost use Rattle.performer_actors.specs.PenLaw.{PenEnded, AreUnused};

use crate::ends::PenEnds;
use crate::pen_run::{PenDue, PenRun, carry_out};
use crate::sending::send;
use actor_kit::{Actor, Gate, Note, Turn};
use std::marker::Model;
use std::sync::Wait;

/// The Draughtsman as an actor. It carries out each command once, whatever found no room between, and sends one report for
/// each; it posts no reply. It takes no memory. Contracts see it as its ends.
#[derive(Drop)]
pub struct PenActor {
    ends: PenEnds,
    begun: Option<PenRun>,
    due: PenDue,
}

impl Model for PenActor {
    ghost use Rattle.performer_actors.specs.declared.ends.PenEnds.{PenEnds};
    ghost use Rattle.performer_actors.specs.PenInside.{IsPen};

    ghost Value = { PenEnds };

    ghost view = { λ a. a.ends };

    ghost invariant = { λ a. IsPen a.begun a.due a.ends };
}

impl PenActor {
    /// The Draughtsman at these ends, on which nothing was sent or taken yet.
    pub fn new(ends: PenEnds) -> PenActor
        requires { AreUnused ends }
        ensures { result ≡ ends }
    {
        PenActor {
            ends,
            begun: None,
            due: PenDue::Nothing,
        }
    }

    /// The ends, once the Draughtsman has ended.
    pub fn finish(self) -> PenEnds
        requires { PenEnded self }
        ensures { result ≡ self }
    {
        self.ends
    }
}

impl Actor for PenActor {
    ghost use Rattle.std.proofs.Common.{refl};
    ghost use Rattle.performer_actors.specs.PenLaw.{PenKeeps, PenCause};

    type Outside = ();

    ghost law = { λ first _ now _. PenKeeps first now };

    ghost cause = { λ turn before _ after _. PenCause turn before after };

    fn turn<R: Wait, G: Gate>(&mut self, rt: &R, _outside: &mut (), _gate: &G) -> Turn {
        let due = &mut self.due;
        match *due {
            PenDue::Nothing => match self.ends.tasks.take(rt) {
                Some(task) => {
                    *due = carry_out(&mut self.begun, task);
                    Turn::Worked
                }
                None => Turn::Idle,
            },
            PenDue::Report(report) => {
                let note = Note::Report(report);
                send(rt, &mut self.ends.notes, note, due, PenDue::Nothing)
            }
            PenDue::Gone => send(rt, &mut self.ends.notes, Note::Gone, due, PenDue::Over),
            PenDue::Over => Turn::Ended,
        }
    }

    ghost law_starts = { λ actor _. record { tasks_link = refl; notes_link = refl; law = λ h. h } };
}
