//! The one cutting of a line into tokens: its tokenization.
#![tactic(auto)]

mod cutting;
mod line;
mod prefixes;
mod print;
mod spelling;

pub use cutting::{Class, LexFault, LineTokens};
pub use line::{lex_line, one_cutting};
pub use print::print_tokens;
pub use spelling::{KEYWORDS, SIGNS, key_of, key_spelling, sign_of, sign_spelling};
