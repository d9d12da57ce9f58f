//! Where bytes come from and where they go: sources, sinks, their faults, and the status that a command ends with.
#![tactic(auto)]

mod calls;
mod feed;
mod mem;
mod outside;
mod port;
mod status;
mod sure;
mod whole;

pub use mem::{MemSink, MemSource};
pub use outside::{StdSink, StdSource};
pub use port::{Failed, PutFault, Sink, Source};
pub use status::{Excess, Status};
pub use sure::{SureSource, VecSink};
pub use whole::{ReadRefusal, put_all, read_within};
