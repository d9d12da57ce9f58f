//! Entries of a transcript.

use kumir_tree::Chars;
use kumir_values::EndKind;
use margins::Margin;
use performer_kit::{PenCommand, Reply, RobotCommand};
use sqlite_items::Items;

/// One entry of a transcript (docs/PROGRAM.md, "Transcript"). Versions, runs and commands of a run are numbered.
#[derive(Debug, Drop)]
pub enum Entry {
    /// An edit made this version.
    Edit {
        version: u32,
    },
    /// The edit's lines are not lines of the text.
    EditRange,
    /// The edit would make the text too long.
    EditLong,
    /// The edit would make too many versions.
    EditMany,
    /// A field was accepted.
    FieldOk,
    /// This line of the field is its first bad one.
    FieldBad {
        line: u32,
    },
    /// A run of this version was taken on.
    Run {
        run: u32,
        version: u32,
    },
    /// An earlier run is not over.
    RunBusy,
    /// This run is told to halt.
    Stop {
        run: u32,
    },
    /// There is no run to halt.
    StopIdle,
    /// Every run is over, and the newest version has its margin.
    Waited,
    /// A bad request at this line of the script.
    Bad {
        line: u32,
    },
    /// The full analysis of a version.
    Margin {
        version: u32,
        margin: Margin,
    },
    /// The version of the run has faults.
    RefusedFaults {
        run: u32,
    },
    /// The version of the run has no algorithm to begin with.
    RefusedMain {
        run: u32,
    },
    /// One output.
    Out {
        run: u32,
        text: Chars,
    },
    /// A command that the Robot carried out.
    Robot {
        run: u32,
        number: u32,
        command: RobotCommand,
        reply: Reply,
    },
    /// A command that the Draughtsman carried out.
    Pen {
        run: u32,
        number: u32,
        command: PenCommand,
        reply: Reply,
    },
    /// The end of a run.
    End {
        run: u32,
        end: EndKind,
    },
    /// The end of the transcript.
    Bye,
}

pub type Entries = Items<Entry>;
