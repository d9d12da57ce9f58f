//! What a program does together with its Robot, whose replies come from its field (docs/LANGUAGE.md, "Performers").
#![tactic(auto)]

mod laws;

pub use laws::{one_play, play_goes_on, play_is_answered, play_only_grows};
