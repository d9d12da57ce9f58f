//! Names and types: the faults of an algorithm, the margin of a program, programs without a fault.
#![tactic(auto)]

mod asked;
mod check;
mod clean;
mod first;
mod fits;
mod found;
mod kinds;
mod laws;
mod locals;
mod margin;
mod parts;
mod refusal;
mod uses;

pub use check::{UnitFaults, check_unit};
pub use clean::{Clean, clean_of};
pub use first::first_header;
pub use laws::{faults_depend_on_asked_names, form_tells_kind, one_margin};
pub use margin::margin_of;
pub use refusal::CleanRefusal;
