//! Values, exact arithmetic within 32 bits, tables, and how a run ends.
#![tactic(auto)]

mod arithmetic;
mod bounds;
mod run_end;
mod table;
mod value;

pub use arithmetic::{add, div, iabs, imax, imin, mul, neg, power, rem, sub};
pub use bounds::Bound;
pub use run_end::{EndKind, RunFault};
pub use table::{Table, TableRefusal};
pub use value::{Value, Values, print_value};
