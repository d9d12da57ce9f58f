//! The field, and the Robot on it.

ghost use Rattle.std.specs.Prelude.{◌⊎◌, ◌≡◌, ◌+◌, ◌*◌, ◌-◌, ◌≤◌, ◌<◌, ◌^◌, ℕ, Err, true, length, IfOk, MatchOption, vec_len};
ghost use Rattle.std.specs.Bool.{OnTrue, OnFalse};
ghost use Rattle.robot_field.specs.declared.text.Header.{Header};
ghost use Rattle.robot_field.specs.declared.text.Mark.{Mark};
ghost use Rattle.robot_field.specs.Text.{IsCountedHeader, IsCountedMark};
ghost use Rattle.robot_field.specs.FieldText.{opened, is_placed, fits, marked, IsHeaderLine, IsMarkLine, Marks, SetsMark, IsFieldText, IsBadMarkAt, IsFirstBad};
ghost use Rattle.robot_field.specs.Board.{usual, no_cells, place_of, has_wall, is_painted, answer, stepped, step_reply, painted, reply_to, board_after};

use crate::side::Side;
use crate::text::{Header, Mark, MarkKind, read_header, read_mark};
use km_base::Memory;
use kumir_tree::Line;
use performer_kit::{Reply, RobotCommand};
use std::alloc::{AllocError, Global};
use std::marker::Model;

/// One truth value for each cell of the largest field, which is 128 by 128.
const CELLS: usize = 16_384;

/// Why lines are no field.
#[derive(Clone, Copy, Debug, PartialEq, Eq)]
pub enum FieldRefusal {
    /// The first line that is wrong, counted from 1; 1 where there are no lines.
    BadField { line: u32 },
    Memory,
}

impl From<AllocError> for FieldRefusal {
    ghost use Rattle.std.specs.Prelude.{◌≡◌};
    ghost use Rattle.robot_field.specs.declared.field.FieldRefusal.TheVariants.{Memory};

    ghost from_gives = { λ _ e. e ≡ Memory };

    fn from(_refused: AllocError) -> FieldRefusal {
        FieldRefusal::Memory
    }
}

/// A field of cells and the Robot in one of them: a size, the Robot's place, a set of walls, a set of painted cells.
/// Cells are counted from 1, from the left and from the top.
#[derive(Drop)]
pub struct Field {
    width: u32,
    height: u32,
    x: u32,
    y: u32,
    right_walls: Vec<bool>,
    below_walls: Vec<bool>,
    painted_cells: Vec<bool>,
}

impl Model for Field {
    ghost use Rattle.std.specs.Prelude.{length};
    ghost use Rattle.robot_field.specs.Board.{Board};
    ghost use Rattle.robot_field.specs.Sound.{IsInField};

    ghost Value = { Board };

    ghost view = { λ f. record { width = f.width; height = f.height; x = f.x; y = f.y; right_walls = f.right_walls.items; below_walls = f.below_walls.items; painted_cells = f.painted_cells.items } };

    ghost invariant = { λ f. IsInField f.width f.height f.x f.y (length f.right_walls.items) (length f.below_walls.items) (length f.painted_cells.items) };
}

/// The place of a cell in a set of cells.
fn place_of(x: u32, y: u32) -> usize
    requires x_within { x ≤ 128 }
    requires y_within { y ≤ 128 }
    requires x_least { 1 ≤ x }
    requires y_least { 1 ≤ y }
    ensures place { result ≡ place_of x y }
    ensures within { result < 16384 }
{
    128 * (y as usize - 1) + (x as usize - 1)
}

/// The empty set of cells.
fn no_cells(alloc: Global) -> Result<Vec<bool>, AllocError>
    ensures cells { IfOk result (λ v. v.items ≡ no_cells) }
    ensures len { IfOk result (λ v. vec_len v ≡ 16384) }
{
    vec![in alloc; false; CELLS]
}

/// The first line of a field text.
fn read_first(line: &Line) -> Option<Header>
    ensures { MatchOption result ((h : Header) → IsHeaderLine line.now h → ⊥) (λ h. IsHeaderLine line.now h) }
{
    let header = read_header(line.as_str())?;
    if is_placed(&header) {
        Some(header)
    } else {
        None
    }
}

/// Whether the size is in its limits and the Robot's cell is one of the field.
fn is_placed(header: &Header) -> bool
    ensures { result ≡ is_placed header.now }
{
    header.width <= 128
        && header.height <= 128
        && header.x <= header.width
        && header.y <= header.height
}

fn answer(yes: bool) -> Reply
    ensures { result ≡ answer yes }
{
    if yes { Reply::Yes } else { Reply::No }
}

impl Field {
    /// The usual field: 10 by 10, the Robot at 1, 1, no inner walls, nothing painted.
    pub fn usual(alloc: Global) -> Result<Field, Memory>
        ensures { IfOk result (λ f. f ≡ usual) }
    {
        Ok(Field {
            width: 10,
            height: 10,
            x: 1,
            y: 1,
            right_walls: no_cells(alloc)?,
            below_walls: no_cells(alloc)?,
            painted_cells: no_cells(alloc)?,
        })
    }

    /// The field that the lines give (docs/PROGRAM.md, "Field text"). `BadField` comes exactly with the first bad line.
    #[tactic(auto, using(crate::proofs::FirstBad::answers_bad))]
    pub fn read(alloc: Global, lines: &[Line]) -> Result<Field, FieldRefusal>
        requires { length lines.now < 2 ^ 32 - 1 }
        ensures field { IfOk result (λ f. IsFieldText lines.now f) }
        ensures bad { (n : ℕ) → result ≡ Err (FieldRefusal.BadField n) → IsFirstBad lines.now n }
        ensures refused { (n : ℕ) → IsFirstBad lines.now n → (result ≡ Err (FieldRefusal.BadField n)) ⊎ (result ≡ Err FieldRefusal.Memory) }
    {
        Field::read_text(alloc, lines)
    }

    fn read_text(alloc: Global, lines: &[Line]) -> Result<Field, FieldRefusal>
        requires { length lines.now < 2 ^ 32 - 1 }
        ensures field { IfOk result (λ f. IsFieldText lines.now f) }
        ensures bad { (n : ℕ) → result ≡ Err (FieldRefusal.BadField n) → IsFirstBad lines.now n }
    {
        let Some((first, others)) = lines.split_first() else {
            return Err(FieldRefusal::BadField { line: 1 });
        };
        let Some(header) = read_first(first) else {
            return Err(FieldRefusal::BadField { line: 1 });
        };
        let mut field = Field::open(alloc, header)?;
        match field.read_marks(others) {
            None => Ok(field),
            Some(place) => Err(FieldRefusal::BadField {
                line: place as u32 + 2,
            }),
        }
    }

    /// A field without inner walls and paint.
    fn open(alloc: Global, header: Header) -> Result<Field, AllocError>
        requires counted { IsCountedHeader header }
        requires placed { is_placed header ≡ true }
        ensures { IfOk result (λ f. f ≡ opened header) }
    {
        Ok(Field {
            width: header.width,
            height: header.height,
            x: header.x,
            y: header.y,
            right_walls: no_cells(alloc)?,
            below_walls: no_cells(alloc)?,
            painted_cells: no_cells(alloc)?,
        })
    }

    /// Sets the marks of the lines, and answers the place of the first line that is no mark.
    fn read_marks(&mut self, lines: &[Line]) -> Option<usize>
        ensures { MatchOption result (Marks self.old lines.now self.new) (λ place. IsBadMarkAt self.old lines.now place) }
    {
        for (place, line) in lines.iter().enumerate() {
            if !self.read_line(line) {
                return Some(place);
            }
        }
        None
    }

    /// Sets the mark of the line, if it is one.
    fn read_line(&mut self, line: &Line) -> bool
        ensures set { OnTrue result (SetsMark self.old line.now self.new) }
        ensures bad { OnFalse result ((m : Mark) → IsMarkLine self.old line.now m → ⊥) }
    {
        match read_mark(line.as_str()) {
            Some(mark) => self.put(mark),
            None => false,
        }
    }

    /// Sets the mark, if it is for a cell of the field.
    fn put(&mut self, mark: Mark) -> bool
        requires { IsCountedMark mark }
        ensures fits { result ≡ fits self.old mark }
        ensures field { OnTrue result (self.new ≡ marked self.old mark) }
    {
        let columns = match mark.kind {
            MarkKind::RightWall => self.width - 1,
            _ => self.width,
        };
        let rows = match mark.kind {
            MarkKind::BelowWall => self.height - 1,
            _ => self.height,
        };
        if mark.x > columns || mark.y > rows {
            return false;
        }
        let place = place_of(mark.x, mark.y);
        match mark.kind {
            MarkKind::Paint => self.painted_cells[place] = true,
            MarkKind::RightWall => self.right_walls[place] = true,
            MarkKind::BelowWall => self.below_walls[place] = true,
        }
        true
    }

    /// The Robot's cell, counted from the left and from the top.
    pub fn place(&self) -> (u32, u32)
        ensures x { result.0 ≡ self.now.x }
        ensures y { result.1 ≡ self.now.y }
    {
        (self.x, self.y)
    }

    /// The same field once more.
    pub fn copy(&self, alloc: Global) -> Result<Field, Memory>
        ensures { IfOk result (λ f. f ≡ self.now) }
    {
        Ok(Field {
            width: self.width,
            height: self.height,
            x: self.x,
            y: self.y,
            right_walls: Vec::from_slice(alloc, &self.right_walls)?,
            below_walls: Vec::from_slice(alloc, &self.below_walls)?,
            painted_cells: Vec::from_slice(alloc, &self.painted_cells)?,
        })
    }

    /// Carries out the command and answers its reply. It takes no memory.
    #[tactic(auto, unfolding(crate::specs::Board::board_after, crate::specs::Board::reply_to))]
    pub fn act(&mut self, command: RobotCommand) -> Reply
        ensures field { self.new ≡ board_after self.old command }
        ensures reply { result ≡ reply_to self.old command }
    {
        match command {
            RobotCommand::Up => self.step(Side::Above),
            RobotCommand::Down => self.step(Side::Below),
            RobotCommand::Left => self.step(Side::Left),
            RobotCommand::Right => self.step(Side::Right),
            RobotCommand::Paint => self.paint(),
            RobotCommand::AboveFree => answer(!self.has_wall(Side::Above)),
            RobotCommand::BelowFree => answer(!self.has_wall(Side::Below)),
            RobotCommand::LeftFree => answer(!self.has_wall(Side::Left)),
            RobotCommand::RightFree => answer(!self.has_wall(Side::Right)),
            RobotCommand::AboveWall => answer(self.has_wall(Side::Above)),
            RobotCommand::BelowWall => answer(self.has_wall(Side::Below)),
            RobotCommand::LeftWall => answer(self.has_wall(Side::Left)),
            RobotCommand::RightWall => answer(self.has_wall(Side::Right)),
            RobotCommand::CellPainted => answer(self.is_painted()),
            RobotCommand::CellClean => answer(!self.is_painted()),
        }
    }

    /// Whether a wall stands at that side of the Robot's cell.
    fn has_wall(&self, side: Side) -> bool
        ensures { result ≡ has_wall self.now side }
    {
        match side {
            Side::Above => self.y == 1 || self.below_walls[place_of(self.x, self.y - 1)],
            Side::Below => self.y == self.height || self.below_walls[place_of(self.x, self.y)],
            Side::Left => self.x == 1 || self.right_walls[place_of(self.x - 1, self.y)],
            Side::Right => self.x == self.width || self.right_walls[place_of(self.x, self.y)],
        }
    }

    /// A step to that side, unless a wall stands there.
    fn step(&mut self, side: Side) -> Reply
        ensures field { self.new ≡ stepped self.old side }
        ensures reply { result ≡ step_reply self.old side }
    {
        if self.has_wall(side) {
            return Reply::Wall;
        }
        match side {
            Side::Above => self.y -= 1,
            Side::Below => self.y += 1,
            Side::Left => self.x -= 1,
            Side::Right => self.x += 1,
        }
        Reply::Done
    }

    fn is_painted(&self) -> bool
        ensures { result ≡ is_painted self.now }
    {
        self.painted_cells[place_of(self.x, self.y)]
    }

    fn paint(&mut self) -> Reply
        ensures field { self.new ≡ painted self.old }
        ensures reply { result ≡ Reply.Done }
    {
        let place = place_of(self.x, self.y);
        self.painted_cells[place] = true;
        Reply::Done
    }
}
