//! The sample: a large script made from a number, carried out, and summed up.
#![tactic(auto)]

mod carried;
mod counted;
mod laws;
mod newest;
mod printed;
mod sample;
mod summed;
mod text;

pub use laws::one_summary;
pub use printed::{Summary, print_summary};
pub use sample::make;
pub use summed::summary;
pub use text::sample_text;
