//! The margin of a text: the marks of its lines, printed and read.
#![tactic(auto)]

mod margin;
mod print;
mod read;

pub use margin::{Margin, Mark};
pub use print::{print_lines, print_margin};
pub use read::{MarginRefusal, read_margin, read_marks, read_words};
