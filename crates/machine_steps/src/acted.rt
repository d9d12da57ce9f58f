//! What one instruction did.

use kumir_tree::Chars;
use kumir_values::EndKind;
use performer_kit::PenCommand;

/// What one instruction did.
#[derive(Drop)]
pub enum Acted {
    /// Nothing that the outside sees.
    Moved,
    /// An output.
    Printed(Chars),
    /// A command to the Draughtsman.
    Told(PenCommand),
    /// The run is over.
    Over(EndKind),
}
