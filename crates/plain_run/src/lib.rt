//! The commands that work without other threads: what they read, answer and write.
#![tactic(auto)]

mod analysis;
mod check;
mod ending;
mod laws;
mod lines;
mod performing;
mod plain;
mod put;
mod run;
mod script;
mod session;
mod text;
mod tokens;

pub use check::check_text;
pub use laws::one_plain_transcript;
pub use script::run_plain;
pub use tokens::tokens_text;
