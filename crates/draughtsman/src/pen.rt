//! The pen.

ghost use Rattle.std.specs.Prelude.{◌≡◌, ◌+◌, ◌<◌, ◌^◌, ◌-◌, ◌↔◌, IsNone};
ghost use Rattle.draughtsman.specs.Place.{IsNear};

use performer_kit::{PenCommand, Segment};

/// The Draughtsman's pen: its place, whether it is down, and the number of commands that it was given.
/// Each command moves it by at most 2 ^ 31 in each direction, or to a place that near to 0, 0, so its place stays
/// within 2 ^ 31 times that number.
#[derive(Clone, Copy, Debug)]
pub struct Pen {
    pub x: i64,
    pub y: i64,
    pub down: bool,
    pub moves: u32,
    pub ghost near_x: { IsNear moves x },
    pub ghost near_y: { IsNear moves y },
}

impl Pen {
    ghost use Rattle.draughtsman.specs.Pen.{fresh, state_of, place_after, is_down_after, state_after, drawn_by, segment_to, DrawsNothing};

    /// The pen of every new run: at 0, 0 and up.
    pub fn new() -> Pen
        ensures at_origin { state_of result ≡ fresh }
        ensures moves { result.moves ≡ 0 }
    {
        Pen {
            x: 0,
            y: 0,
            down: false,
            moves: 0,
        }
    }

    /// The place after the command.
    fn place_after(&self, command: PenCommand) -> (i64, i64)
        ensures x { result.0 ≡ (place_after (state_of self.now) command).0 }
        ensures y { result.1 ≡ (place_after (state_of self.now) command).1 }
        ensures near_x { IsNear (self.now.moves + 1) result.0 }
        ensures near_y { IsNear (self.now.moves + 1) result.1 }
    {
        match command {
            PenCommand::Raise | PenCommand::Lower => (self.x, self.y),
            PenCommand::To { x, y } => (i64::from(x), i64::from(y)),
            PenCommand::By { dx, dy } => (self.x + i64::from(dx), self.y + i64::from(dy)),
        }
    }

    /// Carries out the command and answers the segment that it drew. None comes exactly where the command is no move,
    /// the pen is up, or the pen stays where it is.
    pub fn act(&mut self, command: PenCommand) -> Option<Segment>
        requires { self.old.moves < 2 ^ 32 - 1 }
        ensures state { state_of self.new ≡ state_after (state_of self.old) command }
        ensures drawn { result ≡ drawn_by (state_of self.old) command }
        ensures none { IsNone result ↔ DrawsNothing (state_of self.old) command }
        ensures moves { self.new.moves ≡ self.old.moves + 1 }
    {
        let (x, y) = self.place_after(command);
        let drawn = self.segment_to(x, y);
        self.down = match command {
            PenCommand::Raise => false,
            PenCommand::Lower => true,
            _ => self.down,
        };
        self.x = x;
        self.y = y;
        self.moves += 1;
        drawn
    }

    /// The segment that a move to the place draws.
    fn segment_to(&self, x: i64, y: i64) -> Option<Segment>
        ensures { result ≡ segment_to (state_of self.now) x y }
    {
        if self.down && (x != self.x || y != self.y) {
            Some(Segment {
                x1: self.x,
                y1: self.y,
                x2: x,
                y2: y,
            })
        } else {
            None
        }
    }
}
