//! Lines of code in reverse, until their places are known.
ghost use Rattle.std.specs.Prelude.{◌≡◌, [], ◌<◌, ◌∷◌, ◌++◌, length, OnOk, IfOk, MatchOption};
ghost use Rattle.kumir_compiler.specs.PendingCode.{IsChanged};

use stack_code::Instruction;
use std::alloc::{AllocError, Global};
use std::marker::Model;

/// An instruction. Jumps are counted from their own place.
#[derive(Drop)]
pub enum Pending {
    Known(Instruction),
    /// Goes over so many lines.
    Jump(usize),
    JumpNo(usize),
    /// Goes back over so many lines.
    Back(usize),
    BackNo(usize),
    /// The next turn of the loop in a slot, with its variable, or over so many lines.
    Next(u32, Option<u32>, usize),
}

/// A line whose place is not known yet.
#[derive(Drop)]
pub struct PendingLine {
    pub line: u32,
    pub what: Pending,
}

/// Lines, the last ones first: code is made from its end on. Contracts see them in the order of the code.
#[derive(Drop)]
pub struct PendingLines {
    lines: Vec<PendingLine>,
}

impl Model for PendingLines {
    ghost use Rattle.std.specs.Prelude.{List, reverse};
    ghost use Rattle.kumir_compiler.specs.declared.pending.PendingLine.{PendingLine};

    ghost Value = { List PendingLine };

    ghost view = { λ l. reverse l.lines.items };
}

impl PendingLines {
    pub fn new(alloc: Global) -> PendingLines
        ensures { result ≡ [] }
    {
        PendingLines {
            lines: Vec::new(alloc),
        }
    }

    /// What their memory comes from.
    pub fn alloc(&self) -> Global {
        *self.lines.allocator()
    }

    /// How many there are.
    pub fn count(&self) -> usize
        ensures { result ≡ length self.now }
    {
        self.lines.len()
    }

    /// One line more in front.
    pub fn push(&mut self, line: PendingLine) -> Result<(), AllocError>
        ensures { OnOk result (self.new ≡ line ∷ self.old) }
    {
        self.lines.push(line)?;
        Ok(())
    }

    /// The first line, which is taken away.
    pub fn take(&mut self) -> Option<PendingLine>
        ensures { MatchOption result ((self.old ≡ []) × (self.new ≡ [])) (λ line. self.old ≡ line ∷ self.new) }
    {
        self.lines.pop()
    }

    /// What the line does that has so many behind it is now this.
    pub fn change(&mut self, behind: usize, what: Pending)
        requires { behind < length self.old }
        ensures { IsChanged behind what self.old self.new }
    {
        let line = &mut self.lines[behind];
        line.what = what;
    }
}
