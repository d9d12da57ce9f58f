//! Laws of the command table, which no code needs to run.

ghost use Rattle.std.specs.Prelude.{◌≡◌};
ghost use Rattle.performer_kit.specs.Commands.{performer_name, robot_name, pen_name, performer_named, robot_command_named, pen_shape_named};
ghost use Rattle.performer_kit.specs.Laws.{AreInverse};

/// A name is looked up as a performer exactly where it is that performer's name.
pub fn performer_names_are_apart()
    ensures { AreInverse performer_name performer_named }
{}

/// A name is looked up as a Robot's command exactly where it is that command's name: no two commands share one.
pub fn robot_names_are_apart()
    ensures { AreInverse robot_name robot_command_named }
{}

/// A name is looked up as a Draughtsman's command exactly where it is that command's name.
pub fn pen_names_are_apart()
    ensures { AreInverse pen_name pen_shape_named }
{}
