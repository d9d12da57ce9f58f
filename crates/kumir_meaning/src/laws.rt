//! What holds of all runs; and runs of small programs, computed from the definition of the meaning, in the order of
//! docs/LANGUAGE.md, "Meaning". No code needs to run them.

ghost use Rattle.kumir_meaning.specs.ValuesRun.{ValuesRun};
ghost use Rattle.kumir_meaning.specs.StepsRun.{StatesRun, StepsRun};
ghost use Rattle.kumir_meaning.specs.OrderRun.{OrderRun};
ghost use Rattle.kumir_meaning.specs.NamesRun.{NamesRun};
ghost use Rattle.kumir_meaning.specs.LoopsRun.{LoopsRun};
ghost use Rattle.kumir_meaning.specs.CallsRun.{CallsRun};
ghost use Rattle.kumir_meaning.specs.Laws.{AnyCounter};

/// The counter of turns and calls never runs out before the steps: any counter of at least the steps gives the same trace.
pub fn any_counter()
    ensures { AnyCounter }
{}

/// Arithmetic, its faults, and how values print.
pub fn values_run()
    ensures { ValuesRun }
{}

/// What a run does and how it stands: commands on given replies, `утв` and `стоп`.
pub fn states_run()
    ensures { StatesRun }
{}

/// What takes a step, and what takes none.
pub fn steps_run()
    ensures { StepsRun }
{}

/// The order of operands, indexes, arguments, stores, inputs and outputs.
pub fn order_run()
    ensures { OrderRun }
{}

/// Names that are hidden, declarations, room for elements.
pub fn names_run()
    ensures { NamesRun }
{}

/// Loops with no turn, with one and with several; bounds at the ends of the range; ways out.
pub fn loops_run()
    ensures { LoopsRun }
{}

/// Modes of parameters, the order of a call and of a return.
pub fn calls_run()
    ensures { CallsRun }
{}
