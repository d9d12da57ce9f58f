//! The transcript of a session: its entries, printed and read.
#![tactic(auto)]

mod answers;
mod ends;
mod entries;
mod entry;
mod escaped;
mod line;
mod margin;
mod print;
mod ranges;
mod reports;
mod words;

pub use entries::{TranscriptRefusal, one_print, read_entries};
pub use entry::{Entries, Entry};
pub use print::print_entry;
