//! What the program `workbench` does, over any source and sink.
#![tactic(auto)]

mod complaint;
mod top;
mod words;

pub use complaint::Complaint;
pub use top::workbench;
pub use words::Command;
