//! Laws of runs, which no code needs to run.

ghost use Rattle.kumir_machine.specs.Laws.{HasATrace, BudgetIsSpent};

/// The run of valid code has a trace, on all inputs and replies and for each number of steps.
pub fn valid_code_has_a_trace()
    ensures { HasATrace }
{}

/// A run that is over for want of steps has spent its budget.
pub fn budget_is_spent()
    ensures { BudgetIsSpent }
{}
