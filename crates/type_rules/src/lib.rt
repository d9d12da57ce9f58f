//! The headers that count in a program, and what a name stands for that is no local one.
#![tactic(auto)]

mod callee;
mod headers;
mod units;

pub use callee::Callee;
pub use headers::{AddRefusal, Headers};
pub use kumir_names::BuiltIn;
pub use units::{HeadersRead, headers_of};
