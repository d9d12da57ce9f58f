//! A run, as the Robot knows it.

ghost use Rattle.std.specs.Prelude.{◌≡◌, Some, None, false, if◌then◌else◌};
ghost use Rattle.performer_actors.specs.Performing.{Acts, is_next, onward, report_on, leads, gives, replies_in};
ghost use Rattle.performer_actors.specs.RobotLaw.{robot, robot_task};
ghost use Rattle.performer_actors.specs.RobotDue.{notes_due, replies_due, is_over};

use actor_kit::RobotTask;
use performer_kit::{Command, Reply, Report, RobotCommand};
use robot_field::Field;
use std::marker::Model;

/// The run that began last, how many of its commands were carried out, and the field that they led to.
#[derive(Drop)]
pub struct RobotRun {
    run: u32,
    done: u32,
    field: Field,
}

impl Model for RobotRun {
    ghost use Rattle.robot_field.specs.Board.{Board};
    ghost use Rattle.performer_actors.specs.Performing.{Stand};

    ghost Value = { Stand Board };

    ghost view = { λ r. record { run = r.run; done = r.done; place = r.field } };
}

/// What the Robot has still to send for the last task that it took.
#[derive(Clone, Copy)]
pub enum RobotDue {
    Nothing,
    /// The report, and then its reply.
    Report(Report),
    Reply(Reply),
    Gone,
    /// Nothing, and `Gone` was sent.
    Over,
}

impl RobotRun {
    /// Carries the command out where it is the next of this run, and answers its report.
    fn act(&mut self, run: u32, number: u32, command: RobotCommand) -> Option<Report>
        ensures stand { self.new ≡ (if is_next self.old run number then onward robot self.old command else self.old) }
        ensures report { result ≡ (if is_next self.old run number then Some (report_on robot self.old command) else None) }
    {
        if run != self.run || self.done.checked_add(1) != Some(number) {
            return None;
        }
        self.done = number;
        let reply = self.field.act(command);
        Some(Report {
            run,
            number,
            command: Command::Robot(command),
            reply,
        })
    }
}

// The command is carried out where it is the next of the run that began last.
fn act(begun: &mut Option<RobotRun>, run: u32, number: u32, command: RobotCommand) -> RobotDue
    ensures stand { begun.new ≡ leads robot begun.old (Acts run number command) }
    ensures notes { notes_due result ≡ gives robot begun.old (Acts run number command) }
    ensures replies { replies_due result ≡ replies_in (gives robot begun.old (Acts run number command)) }
    ensures over { is_over result ≡ false }
{
    let Some(begun) = begun else {
        return RobotDue::Nothing;
    };
    match begun.act(run, number, command) {
        Some(report) => RobotDue::Report(report),
        None => RobotDue::Nothing,
    }
}

/// Does what the task asks, and answers what is then due.
pub fn carry_out(begun: &mut Option<RobotRun>, task: RobotTask) -> RobotDue
    ensures stand { begun.new ≡ leads robot begun.old (robot_task task) }
    ensures notes { notes_due result ≡ gives robot begun.old (robot_task task) }
    ensures replies { replies_due result ≡ replies_in (gives robot begun.old (robot_task task)) }
    ensures over { is_over result ≡ false }
{
    match task {
        RobotTask::Begin { run, field } => {
            *begun = Some(RobotRun {
                run,
                done: 0,
                field,
            });
            RobotDue::Nothing
        }
        RobotTask::Act {
            run,
            number,
            command,
        } => act(begun, run, number, command),
        RobotTask::Close => RobotDue::Gone,
    }
}
