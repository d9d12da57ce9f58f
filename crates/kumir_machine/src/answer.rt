//! What a machine answers.

use kumir_tree::Chars;
use kumir_values::EndKind;
use performer_kit::Command;

/// What came of one call.
#[derive(Drop)]
pub enum Advanced {
    /// An output.
    Out(Chars),
    /// A command to a performer. Its reply is owed now.
    Command(Command),
    /// Nothing: the reply to the last command is still owed.
    AwaitReply,
    /// As many steps were taken as the call allows, and one more is needed.
    Paused,
    /// The run is over.
    Ended(EndKind),
    /// Memory is wanted.
    Memory,
}
