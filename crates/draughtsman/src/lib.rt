//! The Draughtsman: a pen that draws segments on an endless sheet (docs/LANGUAGE.md, "Performers").
#![tactic(auto)]

mod laws;
mod pen;
#[cfg(test)]
mod tests;

pub use laws::pen_goes_on;
pub use pen::Pen;
