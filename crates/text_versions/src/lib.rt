//! Texts, edits, and the versions of a text that edits make.
#![tactic(auto)]

mod applied;
mod change;
mod chunk;
mod chunk_list;
mod copies;
mod edit;
mod limits;
mod patch;
mod region;
mod text;
mod versions;

pub use chunk::Chunk;
pub use edit::Edit;
pub use limits::{Limits, SECOND_LIMITS, TEXT_LIMITS, is_within, limits_of};
pub use text::{Text, TextRefusal};
pub use versions::{ApplyRefusal, Versions};
