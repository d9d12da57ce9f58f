//! The names of performers and commands (docs/LANGUAGE.md, "Performers"). Names are exact: case and blanks count.

ghost use Rattle.std.specs.Prelude.{◌≡◌};
ghost use Rattle.std.specs.Str.{chars};
ghost use Rattle.performer_kit.specs.Commands.{performer_name, robot_name, pen_name, performer_named, robot_command_named, pen_shape_named};

use crate::commands::{PenShape, RobotCommand};
use crate::look_up::{Characters, Named, Text, find_named};
use km_base::Performer;

const PERFORMERS: [Performer; 2] = [Performer::Robot, Performer::Pen];

const ROBOT_COMMANDS: [RobotCommand; 15] = [
    RobotCommand::Up,
    RobotCommand::Down,
    RobotCommand::Left,
    RobotCommand::Right,
    RobotCommand::Paint,
    RobotCommand::AboveFree,
    RobotCommand::BelowFree,
    RobotCommand::LeftFree,
    RobotCommand::RightFree,
    RobotCommand::AboveWall,
    RobotCommand::BelowWall,
    RobotCommand::LeftWall,
    RobotCommand::RightWall,
    RobotCommand::CellPainted,
    RobotCommand::CellClean,
];

const PEN_SHAPES: [PenShape; 4] = [PenShape::Raise, PenShape::Lower, PenShape::To, PenShape::By];

impl Named for Performer {
    ghost name = { performer_name };

    fn text(self) -> &'static str {
        match self {
            Performer::Robot => "Робот",
            Performer::Pen => "Чертежник",
        }
    }
}

impl Named for RobotCommand {
    ghost name = { robot_name };

    fn text(self) -> &'static str {
        match self {
            RobotCommand::Up => "вверх",
            RobotCommand::Down => "вниз",
            RobotCommand::Left => "влево",
            RobotCommand::Right => "вправо",
            RobotCommand::Paint => "закрасить",
            RobotCommand::AboveFree => "сверху свободно",
            RobotCommand::BelowFree => "снизу свободно",
            RobotCommand::LeftFree => "слева свободно",
            RobotCommand::RightFree => "справа свободно",
            RobotCommand::AboveWall => "сверху стена",
            RobotCommand::BelowWall => "снизу стена",
            RobotCommand::LeftWall => "слева стена",
            RobotCommand::RightWall => "справа стена",
            RobotCommand::CellPainted => "клетка закрашена",
            RobotCommand::CellClean => "клетка чистая",
        }
    }
}

impl Named for PenShape {
    ghost name = { pen_name };

    fn text(self) -> &'static str {
        match self {
            PenShape::Raise => "поднять перо",
            PenShape::Lower => "опустить перо",
            PenShape::To => "сместиться в точку",
            PenShape::By => "сместиться на вектор",
        }
    }
}

/// The performer with that name. None comes exactly for other names.
#[tactic(auto, unfolding(crate::specs::Commands::performer_named))]
pub fn performer_of(name: &str) -> Option<Performer>
    ensures { result ≡ performer_named (chars name.now) }
{
    find_named(&PERFORMERS, &Text(name))
}

/// As `performer_of`, for a name as a list of characters.
#[tactic(auto, unfolding(crate::specs::Commands::performer_named))]
pub fn performer_of_name(name: &[char]) -> Option<Performer>
    ensures { result ≡ performer_named name.now }
{
    find_named(&PERFORMERS, &Characters(name))
}

/// The Robot's command with that name. None comes exactly for other names.
#[tactic(auto, unfolding(crate::specs::Commands::robot_command_named))]
pub fn robot_command(name: &str) -> Option<RobotCommand>
    ensures { result ≡ robot_command_named (chars name.now) }
{
    find_named(&ROBOT_COMMANDS, &Text(name))
}

/// As `robot_command`, for a name as a list of characters.
#[tactic(auto, unfolding(crate::specs::Commands::robot_command_named))]
pub fn robot_command_of(name: &[char]) -> Option<RobotCommand>
    ensures { result ≡ robot_command_named name.now }
{
    find_named(&ROBOT_COMMANDS, &Characters(name))
}

/// The Draughtsman's command with that name, without its numbers. None comes exactly for other names.
#[tactic(auto, unfolding(crate::specs::Commands::pen_shape_named))]
pub fn pen_shape(name: &str) -> Option<PenShape>
    ensures { result ≡ pen_shape_named (chars name.now) }
{
    find_named(&PEN_SHAPES, &Text(name))
}

/// As `pen_shape`, for a name as a list of characters.
#[tactic(auto, unfolding(crate::specs::Commands::pen_shape_named))]
pub fn pen_shape_of(name: &[char]) -> Option<PenShape>
    ensures { result ≡ pen_shape_named name.now }
{
    find_named(&PEN_SHAPES, &Characters(name))
}
