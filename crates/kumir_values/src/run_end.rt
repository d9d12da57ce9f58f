//! The faults of a run, and how a run ends.

/// Why a run ends with a fault (docs/LANGUAGE.md, "Ends of a run").
#[derive(Clone, Copy, Debug, PartialEq, Eq)]
pub enum RunFault {
    /// What is read has no value.
    Unset,
    /// A number outside the range of `цел`.
    Range,
    /// A division by 0.
    Divisor,
    /// A negative exponent.
    Exponent,
    /// A counted loop with the step 0.
    StepZero,
    /// An index outside the bounds of its table.
    Index,
    /// An upper bound below its lower one, or a table whose bounds are not the formal ones.
    Bounds,
    /// More table elements than a run may have at one time.
    Elements,
    /// More algorithms entered at one time than a run may have.
    Depth,
    /// No input is left.
    NoInput,
    /// The next input is of another kind.
    InputType,
    /// An algorithm with a kind returns, and `знач` has no value.
    NoValue,
}

/// How a run ends (docs/LANGUAGE.md, "Ends of a run").
#[derive(Clone, Copy, Debug, PartialEq, Eq)]
pub enum EndKind {
    /// The main algorithm returned.
    Done,
    /// `стоп` was executed.
    Quit,
    /// `утв`, `дано` or `надо` on this line gave `нет`.
    Assert { line: u32 },
    /// A fault on this line.
    Fault { line: u32, fault: RunFault },
    /// The Robot refused the command on this line.
    Wall { line: u32 },
    /// The budget of steps is spent.
    Steps,
    /// The run was told to halt.
    Stopped,
    /// Want of memory in the run. It is never printed.
    Memory,
}
