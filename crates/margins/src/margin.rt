//! Marks and margins.
ghost use Rattle.std.specs.Prelude.{◌≡◌, ◌↔◌, [], ◌∷◌, ◌++◌, IsTrue, IfOk, OnOk, OnErr};
ghost use Rattle.margins.specs.Marks.{IsMargin, IsBefore};

use km_base::Memory;
use sqlite_items::Items;
use std::alloc::Global;
use std::marker::Model;

/// A line of a text and the code of the fault on it (docs/LANGUAGE.md, "Faults").
#[derive(Clone, Copy, Debug, PartialEq, Eq)]
pub struct Mark {
    pub line: u32,
    pub code: u16,
}

/// Marks on rising lines, at most one for each line, seen as the list of its marks.
#[derive(Debug, Drop)]
pub struct Margin {
    marks: Items<Mark>,
}

impl Model for Margin {
    ghost use Rattle.std.specs.Prelude.{List};
    ghost use Rattle.margins.specs.declared.margin.Mark.{Mark};
    ghost use Rattle.margins.specs.Marks.{IsMargin};

    ghost Value = { List Mark };

    ghost view = { λ m. m.marks };

    ghost invariant = { λ m. IsMargin m.marks };
}

impl Margin {
    /// A margin without marks. It takes no memory.
    pub fn new(alloc: Global) -> Margin
        ensures { result ≡ [] }
    {
        Margin {
            marks: Items::new(alloc),
        }
    }

    /// The marks in order. It takes no memory.
    pub fn marks(&self) -> &[Mark]
        ensures shown { result.now ≡ self.now }
        ensures margin { IsMargin self.now }
    {
        self.marks.as_slice()
    }

    /// Whether each mark stands on a line before this one.
    pub fn is_before(&self, line: u32) -> bool
        ensures { IsTrue result ↔ IsBefore self.now line }
    {
        match self.marks.as_slice().last() {
            None => true,
            Some(mark) => mark.line < line,
        }
    }

    /// Puts a mark at the end; its line is greater than that of each mark there. A refused push leaves the margin as it
    /// was.
    pub fn push(&mut self, mark: Mark) -> Result<(), Memory>
        requires { IsBefore self.old mark.line }
        ensures ok { OnOk result (self.new ≡ self.old ++ mark ∷ []) }
        ensures err { OnErr result (self.new ≡ self.old) }
    {
        self.marks.push(mark)?;
        Ok(())
    }

    /// The same marks once more.
    pub fn copy(&self, alloc: Global) -> Result<Margin, Memory>
        ensures { IfOk result (λ m. m ≡ self.now) }
    {
        Ok(Margin {
            marks: Items::from_slice(alloc, self.marks.as_slice())?,
        })
    }
}
