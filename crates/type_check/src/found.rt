//! What was found in the pieces so far.

use crate::asked::Asked;
use crate::locals::Locals;
use kumir_tree::{Faults, Kind};
use type_rules::Headers;

/// The local names, the names that were asked for, and the faults, behind some pieces.
#[derive(Drop)]
pub struct Found {
    pub locals: Locals,
    pub asked: Asked,
    pub faults: Faults,
}

/// What the pieces of an algorithm are checked by.
#[derive(Clone, Copy)]
pub struct Rules<'a> {
    pub headers: &'a Headers,
    /// The kind of the algorithm.
    pub gives: Option<Kind>,
}
