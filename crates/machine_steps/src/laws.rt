//! Laws of the machine's parts, which no code needs to run.

ghost use Rattle.machine_steps.specs.Local.{ValidLinesFit};
ghost use Rattle.machine_steps.specs.Carried.{CarriedStepsTo};
ghost use Rattle.machine_steps.specs.Laws.{EachEventStepsTo, StepsJoin, IsPrefixOfTheRun, EndsTheRun};

/// In valid code the slots that an instruction writes are there.
pub fn valid_lines_fit()
    ensures { ValidLinesFit }
{}

/// Steps from a state to a second one, and from there to a third one, join.
pub fn steps_join()
    ensures { StepsJoin }
{}

/// Each event steps to its next state: a step takes one step, an act adds one act, a reply is taken, an input is taken.
pub fn each_event_steps_to()
    ensures { EachEventStepsTo }
{}

/// The acts so far are a prefix of those of the run within the steps taken, on the replies given.
pub fn acts_so_far_are_a_prefix()
    ensures { IsPrefixOfTheRun }
{}

/// Where an instruction ends the run, the acts so far and its own are all of those of the run, and its state is that of the run.
pub fn last_event_ends_the_run()
    ensures { EndsTheRun }
{}

/// A carried out instruction steps to its next state with the act that was answered, or the run is over in that way.
pub fn what_is_carried_out_steps_to()
    ensures { CarriedStepsTo }
{}
