//! Requests of a script.

use kumir_tree::Lines;
use kumir_values::Values;
use sqlite_items::Items;
use text_versions::Edit;

/// What a request asks for (docs/PROGRAM.md, "Script").
#[derive(Debug, Drop)]
pub enum Ask {
    /// Another version of the text.
    Edit(Edit),
    /// The lines of a field text.
    Field(Lines),
    /// A run of the newest version on these inputs.
    Run(Values),
    /// The end of the run.
    Stop,
    /// An answer once every run is over and the newest version has its margin.
    Wait,
    /// What is no request.
    Bad,
}

/// A request with the number of its first line.
#[derive(Debug, Drop)]
pub struct Request {
    pub line: u32,
    pub ask: Ask,
}

pub type Requests = Items<Request>;
