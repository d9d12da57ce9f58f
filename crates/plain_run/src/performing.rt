//! The performers of a run, which carry its commands out.

ghost use Rattle.std.specs.Prelude.{◌≡◌, ◌-◌, ◌<◌, ◌^◌};
ghost use Rattle.performer_kit.specs.declared.commands.Command.TheVariants as Command;
ghost use Rattle.kumir_machine.specs.Course.{CanHave};
ghost use Rattle.transcript.specs.Print.{IsPrintable};
ghost use Rattle.plain_run.specs.RunEntries.{ready_on, reply_by, report, with_command};
ghost use Rattle.plain_run.specs.Performing.{performers_in};

use draughtsman::Pen;
use performer_kit::{Command, PenCommand, Reply, RobotCommand};
use robot_field::Field;
use transcript::Entry;

/// The Robot on its field and the Draughtsman's pen, in one run.
#[derive(Drop)]
pub struct Performing {
    /// How many commands the Robot has carried out; the pen counts its own.
    pub steps: u32,
    pub field: Field,
    pub pen: Pen,
}

impl Performing {
    /// The performers at the begin of a run on this field.
    pub fn new(field: Field) -> Performing
        ensures { performers_in result ≡ ready_on field }
    {
        Performing {
            steps: 0,
            field,
            pen: Pen::new(),
        }
    }

    /// The Robot carries its next command out: the reply, and the report in this run.
    fn act_robot(&mut self, run: u32, command: RobotCommand) -> (Reply, Entry)
        requires { self.old.steps < 2 ^ 32 - 1 }
        ensures performers { performers_in self.new ≡ with_command (performers_in self.old) (Command.Robot command) }
        ensures reply { result.0 ≡ reply_by (performers_in self.old) (Command.Robot command) }
        ensures report { result.1 ≡ report run (performers_in self.old) (Command.Robot command) }
    {
        let reply = self.field.act(command);
        self.steps += 1;
        let report = Entry::Robot {
            run,
            number: self.steps,
            command,
            reply,
        };
        (reply, report)
    }

    /// The pen carries its next command out: the reply, and the report in this run.
    fn act_pen(&mut self, run: u32, command: PenCommand) -> (Reply, Entry)
        requires { self.old.pen.moves < 2 ^ 32 - 1 }
        ensures performers { performers_in self.new ≡ with_command (performers_in self.old) (Command.Pen command) }
        ensures reply { result.0 ≡ reply_by (performers_in self.old) (Command.Pen command) }
        ensures report { result.1 ≡ report run (performers_in self.old) (Command.Pen command) }
    {
        let reply = match self.pen.act(command) {
            Some(segment) => Reply::Drawn(segment),
            None => Reply::Done,
        };
        let report = Entry::Pen {
            run,
            number: self.pen.moves,
            command,
            reply,
        };
        (reply, report)
    }

    /// The next command is carried out by its performer: the reply, and the report in this run.
    pub fn carry_out(&mut self, run: u32, command: Command) -> (Reply, Entry)
        requires steps { self.old.steps < 2 ^ 32 - 1 }
        requires moves { self.old.pen.moves < 2 ^ 32 - 1 }
        ensures performers { performers_in self.new ≡ with_command (performers_in self.old) command }
        ensures reply { result.0 ≡ reply_by (performers_in self.old) command }
        ensures report { result.1 ≡ report run (performers_in self.old) command }
    {
        match command {
            Command::Robot(command) => self.act_robot(run, command),
            Command::Pen(command) => self.act_pen(run, command),
        }
    }
}
