//! Places at which a test can hold an actor.

/// A place that an actor passes.
#[derive(Clone, Copy, Debug, PartialEq, Eq)]
pub enum Place {
    /// The analyser has taken the job of this version, and has not begun it.
    Job { version: u32 },
    /// The machine is about to post an output of this run.
    Output { run: u32 },
}

/// What actors pass at some places. A test may hold an actor there for a while; nothing is said of it.
pub trait Gate {
    fn pass(&self, place: Place);
}

/// A gate that holds nobody.
#[derive(Clone, Copy, Debug)]
pub struct NoGate;

impl Gate for NoGate {
    fn pass(&self, _place: Place) {}
}
