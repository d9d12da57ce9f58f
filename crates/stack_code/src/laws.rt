//! Laws of the run of code, which no code needs to run.

ghost use Rattle.stack_code.specs.CodeRuns.{HasOneTrace, OnlyGrows};
ghost use Rattle.stack_code.specs.Computed.{CodeRunsAsShown};

/// The run of code has one trace: its acts and its state.
pub fn code_has_one_trace()
    ensures { HasOneTrace }
{}

/// On more steps and more replies the acts of a run begin with those that it has on less.
pub fn code_only_grows()
    ensures { OnlyGrows }
{}

/// Small pieces of code run as their definition computes.
pub fn code_runs_as_shown()
    ensures { CodeRunsAsShown }
{}
