//! The Robot's actor.

ghost use Rattle.std.specs.Prelude.{◌≡◌, []};
ghost use Rattle.performer_actors.specs.RobotLaw.{RobotEnded, AreUnused};

use crate::ends::RobotEnds;
use crate::robot_run::{RobotDue, RobotRun, carry_out};
use crate::sending::send;
use actor_kit::{Actor, Gate, Note, Turn};
use std::marker::Model;
use std::sync::Wait;

/// The Robot as an actor. It carries out each command once, whatever found no room between, and sends for each one report
/// and one reply. It takes no memory. Contracts see it as its ends.
#[derive(Drop)]
pub struct RobotActor {
    ends: RobotEnds,
    begun: Option<RobotRun>,
    due: RobotDue,
}

impl Model for RobotActor {
    ghost use Rattle.performer_actors.specs.declared.ends.RobotEnds.{RobotEnds};
    ghost use Rattle.performer_actors.specs.RobotInside.{IsRobot};

    ghost Value = { RobotEnds };

    ghost view = { λ a. a.ends };

    ghost invariant = { λ a. IsRobot a.begun a.due a.ends };
}

impl RobotActor {
    /// The Robot at these ends, on which nothing was sent or taken yet.
    pub fn new(ends: RobotEnds) -> RobotActor
        requires { AreUnused ends }
        ensures { result ≡ ends }
    {
        RobotActor {
            ends,
            begun: None,
            due: RobotDue::Nothing,
        }
    }

    /// The ends, once the Robot has ended.
    pub fn finish(self) -> RobotEnds
        requires { RobotEnded self }
        ensures { result ≡ self }
    {
        self.ends
    }
}

impl Actor for RobotActor {
    ghost use Rattle.std.proofs.Common.{refl};
    ghost use Rattle.performer_actors.specs.RobotLaw.{RobotKeeps, RobotCause};

    type Outside = ();

    ghost law = { λ first _ now _. RobotKeeps first now };

    ghost cause = { λ turn before _ after _. RobotCause turn before after };

    fn turn<R: Wait, G: Gate>(&mut self, rt: &R, _outside: &mut (), _gate: &G) -> Turn {
        let due = &mut self.due;
        match *due {
            RobotDue::Nothing => match self.ends.tasks.take(rt) {
                Some(task) => {
                    *due = carry_out(&mut self.begun, task);
                    Turn::Worked
                }
                None => Turn::Idle,
            },
            RobotDue::Report(report) => {
                let behind = RobotDue::Reply(report.reply);
                send(rt, &mut self.ends.notes, Note::Report(report), due, behind)
            }
            RobotDue::Reply(reply) => {
                send(rt, &mut self.ends.replies, reply, due, RobotDue::Nothing)
            }
            RobotDue::Gone => send(rt, &mut self.ends.notes, Note::Gone, due, RobotDue::Over),
            RobotDue::Over => Turn::Ended,
        }
    }

    ghost law_starts = { λ actor _. record { tasks_link = refl; notes_link = refl; replies_link = refl; law = λ h. h } };
}
