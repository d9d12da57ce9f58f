//! A run, as the Draughtsman knows it.

ghost use Rattle.std.specs.Prelude.{◌≡◌, Some, None, false, if◌then◌else◌};
ghost use Rattle.draughtsman.specs.Pen.{reply_of};
ghost use Rattle.performer_actors.specs.Performing.{Acts, is_next, onward, report_on, leads, gives};
ghost use Rattle.performer_actors.specs.PenLaw.{draughtsman, pen_task};
ghost use Rattle.performer_actors.specs.PenDue.{notes_due, is_over};

use actor_kit::PenTask;
use draughtsman::Pen;
use performer_kit::{Command, PenCommand, Reply, Report, Segment};
use std::marker::Model;

/// The run that began last, and its pen, which counts the commands that it was given.
#[derive(Drop)]
pub struct PenRun {
    run: u32,
    pen: Pen,
}

impl Model for PenRun {
    ghost use Rattle.draughtsman.specs.Pen.{PenState, state_of};
    ghost use Rattle.performer_actors.specs.Performing.{Stand};

    ghost Value = { Stand PenState };

    ghost view = { λ r. record { run = r.run; done = r.pen.moves; place = state_of r.pen } };
}

/// What the Draughtsman has still to send for the last task that it took.
#[derive(Clone, Copy)]
pub enum PenDue {
    Nothing,
    Report(Report),
    Gone,
    /// Nothing, and `Gone` was sent.
    Over,
}

// A segment is drawn, and all else is done.
fn reply_of(drawn: Option<Segment>) -> Reply
    ensures { result ≡ reply_of drawn }
{
    match drawn {
        Some(segment) => Reply::Drawn(segment),
        None => Reply::Done,
    }
}

impl PenRun {
    /// Carries the command out where it is the next of this run, and answers its report.
    fn act(&mut self, run: u32, number: u32, command: PenCommand) -> Option<Report>
        ensures stand { self.new ≡ (if is_next self.old run number then onward draughtsman self.old command else self.old) }
        ensures report { result ≡ (if is_next self.old run number then Some (report_on draughtsman self.old command) else None) }
    {
        if run != self.run || self.pen.moves.checked_add(1) != Some(number) {
            return None;
        }
        let reply = reply_of(self.pen.act(command));
        Some(Report {
            run,
            number,
            command: Command::Pen(command),
            reply,
        })
    }
}

// The command is carried out where it is the next of the run that began last.
fn act(begun: &mut Option<PenRun>, run: u32, number: u32, command: PenCommand) -> PenDue
    ensures stand { begun.new ≡ leads draughtsman begun.old (Acts run number command) }
    ensures notes { notes_due result ≡ gives draughtsman begun.old (Acts run number command) }
    ensures over { is_over result ≡ false }
{
    let Some(begun) = begun else {
        return PenDue::Nothing;
    };
    match begun.act(run, number, command) {
        Some(report) => PenDue::Report(report),
        None => PenDue::Nothing,
    }
}

/// Does what the task asks, and answers what is then due.
pub fn carry_out(begun: &mut Option<PenRun>, task: PenTask) -> PenDue
    ensures stand { begun.new ≡ leads draughtsman begun.old (pen_task task) }
    ensures notes { notes_due result ≡ gives draughtsman begun.old (pen_task task) }
    ensures over { is_over result ≡ false }
{
    match task {
        PenTask::Begin { run } => {
            *begun = Some(PenRun {
                run,
                pen: Pen::new(),
            });
            PenDue::Nothing
        }
        PenTask::Act {
            run,
            number,
            command,
        } => act(begun, run, number, command),
        PenTask::Close => PenDue::Gone,
    }
}
