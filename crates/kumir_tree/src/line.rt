//! Lines of a text.
ghost use Rattle.std.specs.Prelude.{◌≡◌, ◌≢◌, ◌↔◌, nat_eq, true, false, IsTrue, IfOk, Contains};
ghost use Rattle.std.proofs.Common.{rules};
ghost use Rattle.std.specs.Cmp.Rules.{comparing, hashing};
ghost use Rattle.std.specs.Cmp.Lexicographic.{pointwise};
ghost use Rattle.std.specs.Hash as fed;
ghost use Rattle.std.specs.Str.{chars, encode_utf8_all};
ghost use Rattle.std.specs.String.{string_bytes};
ghost use Rattle.kumir_tree.specs.Lines.{IsLine};

use sqlite_items::Items;
use std::alloc::{AllocError, Global};
use std::hash::{Hash, Hasher};
use std::marker::Model;

/// Why a text is no line.
#[derive(Clone, Copy, Debug, PartialEq, Eq)]
pub enum LineRefusal {
    /// It has a line feed.
    LineFeed,
    Memory,
}

impl From<AllocError> for LineRefusal {
    ghost use Rattle.std.specs.Prelude.{◌≡◌};
    ghost use Rattle.kumir_tree.specs.declared.line.LineRefusal.TheVariants.{Memory};

    ghost from_gives = { λ a e. e ≡ Memory };

    fn from(_refused: AllocError) -> LineRefusal {
        LineRefusal::Memory
    }
}

/// A line of a text, seen as the list of its characters. No line feed is among them.
#[derive(Debug, Drop)]
pub struct Line {
    text: String,
}

impl Model for Line {
    ghost use Rattle.std.specs.Prelude.{List, ℕ};
    ghost use Rattle.std.specs.Str.{chars};
    ghost use Rattle.std.specs.String.{string_bytes};
    ghost use Rattle.kumir_tree.specs.Lines.{IsLine};

    ghost Value = { List ℕ };

    ghost view = { λ l. chars (string_bytes l.text) };

    ghost invariant = { λ l. IsLine (chars (string_bytes l.text)) };
}

impl Line {
    /// The line with this text, which has no line feed.
    pub fn new(alloc: Global, text: &str) -> Result<Line, AllocError>
        requires { IsLine (chars text.now) }
        ensures { IfOk result (λ l. l ≡ chars text.now) }
    {
        Ok(Line {
            text: String::from_str(alloc, text)?,
        })
    }

    /// The line with this text.
    pub fn of_text(alloc: Global, text: &str) -> Result<Line, LineRefusal>
        ensures ok { IfOk result (λ l. l ≡ chars text.now) }
        ensures line_feed { (result ≡ Err LineRefusal.LineFeed) ↔ Contains (chars text.now) 10 }
        ensures one_line { result ≢ Err LineRefusal.LineFeed → IsLine (chars text.now) }
    {
        if has_line_feed(text) {
            return Err(LineRefusal::LineFeed);
        }
        Ok(Line::new(alloc, text)?)
    }

    /// The line with this text, which has no line feed, without taking memory.
    pub fn from_string(text: String) -> Line
        requires { IsLine (chars (string_bytes text)) }
        ensures { result ≡ chars (string_bytes text) }
    {
        Line { text }
    }

    /// The text of the line.
    #[tactic(auto, using(crate::proofs::Spelled::spelled_by))]
    pub fn as_str(&self) -> &str
        ensures characters { chars result.now ≡ self.now }
        ensures spelled { result.now ≡ encode_utf8_all self.now }
        ensures one_line { IsLine self.now }
    {
        self.text.as_str()
    }

    pub fn copy(&self, alloc: Global) -> Result<Line, AllocError>
        ensures { IfOk result (λ c. c ≡ self.now) }
    {
        Line::new(alloc, self.as_str())
    }

    #[tactic(auto, using(crate::proofs::Spelled::same_spelling))]
    pub fn same(&self, other: &Line) -> bool
        ensures { IsTrue result ↔ (self.now ≡ other.now) }
    {
        self.as_str() == other.as_str()
    }
}

fn has_line_feed(text: &str) -> bool
    ensures yes { result ≡ true → Contains (chars text.now) 10 }
    ensures none { result ≡ false → IsLine (chars text.now) }
{
    text.chars().any(|c| c == '\n')
}

impl PartialEq for Line {
    ghost eq = { pointwise nat_eq };

    ghost laws = { Prim.search (comparing, rules) };

    fn eq(&self, other: &Line) -> bool {
        self.same(other)
    }
}

impl Eq for Line {
    ghost laws = { Prim.search (comparing, rules) };
}

impl Hash for Line {
    ghost hash_input = { λ a. fed.str (encode_utf8_all a) };

    ghost respects_eq = { Prim.search (hashing, rules) };

    #[tactic(auto, using(crate::proofs::Spelled::spelled_by))]
    fn hash<H: Hasher>(&self, state: &mut H) {
        self.as_str().hash(state);
    }
}

pub type Lines = Items<Line>;
