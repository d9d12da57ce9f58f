//! The messages between actors. Each link carries one of these types; a reply to the machine is a `Reply`.
//!
//! Runs are numbered from 1, and so are the commands to each performer in a run.

use kumir_tree::Chars;
use kumir_values::{EndKind, Values};
use performer_kit::{PenCommand, Report, RobotCommand};
use robot_field::Field;

/// What the desk asks of the analyser. `T` is a text.
#[derive(Drop)]
pub enum Job<T> {
    /// Analyse the text of this version.
    Analyse { version: u32, text: T },
    /// No further job comes.
    Close,
}

/// What the analyser answers to a job. `A` is an analysed text.
#[derive(Drop)]
pub enum Verdict<A> {
    /// The text is analysed.
    Done(A),
    /// The text of this version was not analysed, since the newer one was shown.
    Skipped { version: u32, newer: u32 },
    /// Memory was wanted for the text of this version.
    Memory { version: u32 },
    /// No further verdict comes.
    Gone,
}

/// What the desk orders of the machine. `A` is an analysed text.
#[derive(Drop)]
pub enum Order<A> {
    /// Carry the program out on these inputs, on a Robot's field, in at most so many steps.
    Start {
        run: u32,
        program: A,
        inputs: Values,
        field: Field,
        budget: u32,
    },
    /// End this run, if it goes on.
    Halt {
        run: u32,
    },
    /// End the run that goes on. No further order comes.
    Close,
}

/// What the machine tells the desk.
#[derive(Drop)]
pub enum Event {
    /// The run has put a text out.
    Out {
        run: u32,
        text: Chars,
    },
    /// The run has ended so, after as many outputs, commands to the Robot and commands to the Draughtsman.
    Ended {
        run: u32,
        end: EndKind,
        outs: u64,
        robot: u32,
        pen: u32,
    },
    /// No further event comes.
    Gone,
}

/// What the machine asks of the Robot.
#[derive(Drop)]
pub enum RobotTask {
    /// A run begins on this field.
    Begin {
        run: u32,
        field: Field,
    },
    /// Carry out the command with this number in the run.
    Act {
        run: u32,
        number: u32,
        command: RobotCommand,
    },
    /// No further task comes.
    Close,
}

/// What the machine asks of the Draughtsman.
#[derive(Clone, Copy, Debug, PartialEq, Eq)]
pub enum PenTask {
    /// A run begins, with a fresh pen.
    Begin {
        run: u32,
    },
    /// Carry out the command with this number in the run.
    Act {
        run: u32,
        number: u32,
        command: PenCommand,
    },
    /// No further task comes.
    Close,
}

/// What a performer tells the desk.
#[derive(Clone, Copy, Debug, PartialEq, Eq)]
pub enum Note {
    /// A command was carried out.
    Report(Report),
    /// No further note comes.
    Gone,
}
