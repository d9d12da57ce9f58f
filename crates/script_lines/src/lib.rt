//! The requests of a session script, read from its bytes in pieces.
#![tactic(auto)]

mod gathered;
mod laws;
mod read;
mod reader;
mod request;
mod state;

pub use laws::whole_grows;
pub use reader::ScriptReader;
pub use request::{Ask, Request, Requests};
