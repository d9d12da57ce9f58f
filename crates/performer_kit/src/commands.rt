//! What a performer is told and what it answers.

/// A command of the Robot, in the order of docs/LANGUAGE.md, "Performers": four steps, painting, ten tests.
#[derive(Clone, Copy, Debug, PartialEq, Eq)]
pub enum RobotCommand {
    /// `вверх`
    Up,
    /// `вниз`
    Down,
    /// `влево`
    Left,
    /// `вправо`
    Right,
    /// `закрасить`
    Paint,
    /// `сверху свободно`
    AboveFree,
    /// `снизу свободно`
    BelowFree,
    /// `слева свободно`
    LeftFree,
    /// `справа свободно`
    RightFree,
    /// `сверху стена`
    AboveWall,
    /// `снизу стена`
    BelowWall,
    /// `слева стена`
    LeftWall,
    /// `справа стена`
    RightWall,
    /// `клетка закрашена`
    CellPainted,
    /// `клетка чистая`
    CellClean,
}

impl RobotCommand {
    ghost use Rattle.std.specs.Prelude.{◌≡◌};
    ghost use Rattle.performer_kit.specs.Commands.{is_test};

    /// Whether it is a test, which is answered by yes or no.
    pub fn is_test(self) -> bool
        ensures { result ≡ is_test self }
    {
        match self {
            RobotCommand::Up
            | RobotCommand::Down
            | RobotCommand::Left
            | RobotCommand::Right
            | RobotCommand::Paint => false,
            RobotCommand::AboveFree
            | RobotCommand::BelowFree
            | RobotCommand::LeftFree
            | RobotCommand::RightFree
            | RobotCommand::AboveWall
            | RobotCommand::BelowWall
            | RobotCommand::LeftWall
            | RobotCommand::RightWall
            | RobotCommand::CellPainted
            | RobotCommand::CellClean => true,
        }
    }
}

/// A command of the Draughtsman without its numbers.
#[derive(Clone, Copy, Debug, PartialEq, Eq)]
pub enum PenShape {
    /// `поднять перо`
    Raise,
    /// `опустить перо`
    Lower,
    /// `сместиться в точку`, with two numbers
    To,
    /// `сместиться на вектор`, with two numbers
    By,
}

impl PenShape {
    ghost use Rattle.std.specs.Prelude.{◌≡◌};
    ghost use Rattle.performer_kit.specs.Commands.{pen_arity};

    /// How many numbers it takes.
    pub fn arity(self) -> usize
        ensures { result ≡ pen_arity self }
    {
        match self {
            PenShape::Raise | PenShape::Lower => 0,
            PenShape::To | PenShape::By => 2,
        }
    }
}

/// A command of the Draughtsman.
#[derive(Clone, Copy, Debug, PartialEq, Eq)]
pub enum PenCommand {
    /// The pen goes up.
    Raise,
    /// The pen goes down.
    Lower,
    /// The pen moves to the place.
    To { x: i32, y: i32 },
    /// The pen moves by the vector.
    By { dx: i32, dy: i32 },
}

/// A command to one of the performers.
#[derive(Clone, Copy, Debug, PartialEq, Eq)]
pub enum Command {
    Robot(RobotCommand),
    Pen(PenCommand),
}

/// A segment that the Draughtsman drew, from its first place to its second.
#[derive(Clone, Copy, Debug, PartialEq, Eq)]
pub struct Segment {
    pub x1: i64,
    pub y1: i64,
    pub x2: i64,
    pub y2: i64,
}

/// What a performer answers (docs/LANGUAGE.md, "Performers").
#[derive(Clone, Copy, Debug, PartialEq, Eq)]
pub enum Reply {
    Done,
    Yes,
    No,
    Wall,
    Drawn(Segment),
}

/// A command that a performer carried out: the run, the command's number in it, and the reply.
#[derive(Clone, Copy, Debug, PartialEq, Eq)]
pub struct Report {
    pub run: u32,
    pub number: u32,
    pub command: Command,
    pub reply: Reply,
}
