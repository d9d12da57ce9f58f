//! The full analysis of texts.
#![tactic(auto)]

mod analysed;
mod analyser;
mod laws;
mod stop;

pub use analysed::Analysed;
pub use analyser::{Analyser, Analysis};
pub use laws::{one_analysis, one_list_of_units};
pub use stop::{NeverStop, Stop};
