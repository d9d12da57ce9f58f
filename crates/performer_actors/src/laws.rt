//! Laws of what the performers tell, which no code needs to run.

ghost use Rattle.performer_actors.specs.Laws.{RobotRunsAreTold, PenRunsAreTold};

/// What the Robot is to tell of a run on a field, whatever came before it: one report for each command, numbered from 1,
/// with the replies of the field.
pub fn robot_runs_are_told()
    ensures { RobotRunsAreTold }
{}

/// What the Draughtsman is to tell of a run, whatever came before it: one report for each command, numbered from 1, with the
/// replies of a fresh pen.
pub fn pen_runs_are_told()
    ensures { PenRunsAreTold }
{}
