//! Lists of characters.
ghost use Rattle.std.specs.Prelude.{◌≡◌, ◌↔◌, nat_eq, IsTrue, IfOk, OnOk, OnErr, ◌++◌, ◌∷◌, []};
ghost use Rattle.std.proofs.Common.{rules};
ghost use Rattle.std.specs.Cmp.{partial_order_from_own_ties};
ghost use Rattle.std.specs.Cmp.Rules.{comparing, hashing};
ghost use Rattle.std.specs.Cmp.Lexicographic.{pointwise, slice_cmp};
ghost use Rattle.std.specs.Ordering.{nat_cmp, as_partial_cmp};
ghost use Rattle.std.specs.Hash as fed;

use sqlite_items::Items;
use std::alloc::{AllocError, Global};
use std::cmp::Ordering;
use std::hash::{Hash, Hasher};
use std::marker::Model;

/// A name, as the list of its characters.
#[derive(Debug, Drop)]
pub struct Name {
    chars: Vec<char>,
}

impl Model for Name {
    ghost use Rattle.std.specs.Prelude.{List, ℕ};

    ghost Value = { List ℕ };

    ghost view = { λ n. n.chars.items };
}

impl Name {
    pub fn new(alloc: Global) -> Name
        ensures { result ≡ [] }
    {
        Name {
            chars: Vec::new(alloc),
        }
    }

    /// These characters, without taking memory.
    pub fn from_vec(chars: Vec<char>) -> Name
        ensures { result ≡ chars.items }
    {
        Name { chars }
    }

    /// The characters, without taking memory.
    pub fn into_vec(self) -> Vec<char>
        ensures { result.items ≡ self }
    {
        let Name { chars } = self;
        chars
    }

    pub fn as_slice(&self) -> &[char]
        ensures { result.now ≡ self.now }
    {
        self.chars.as_slice()
    }

    pub fn push(&mut self, c: char) -> Result<(), AllocError>
        ensures ok { OnOk result (self.new ≡ self.old ++ c ∷ []) }
        ensures err { OnErr result (self.new ≡ self.old) }
    {
        self.chars.push(c)?;
        Ok(())
    }

    pub fn copy(&self, alloc: Global) -> Result<Name, AllocError>
        ensures { IfOk result (λ c. c ≡ self.now) }
    {
        Ok(Name {
            chars: Vec::from_slice(alloc, self.chars.as_slice())?,
        })
    }

    pub fn same(&self, other: &Name) -> bool
        ensures { IsTrue result ↔ (self.now ≡ other.now) }
    {
        self.chars.as_slice() == other.chars.as_slice()
    }
}

impl PartialEq for Name {
    ghost eq = { pointwise nat_eq };

    ghost laws = { Prim.search (comparing, rules) };

    fn eq(&self, other: &Name) -> bool {
        self.chars.as_slice() == other.chars.as_slice()
    }
}

impl Eq for Name {
    ghost laws = { Prim.search (comparing, rules) };
}

impl Hash for Name {
    ghost hash_input = { λ a. fed.slice fed.char a };

    ghost respects_eq = { Prim.search (hashing, rules) };

    fn hash<H: Hasher>(&self, state: &mut H) {
        self.chars.as_slice().hash(state);
    }
}

impl PartialOrd for Name {
    ghost partial_cmp = { as_partial_cmp (slice_cmp nat_cmp) };

    ghost laws = { partial_order_from_own_ties (Prim.search (comparing, rules))
        (Prim.search (comparing, rules)) };

    fn partial_cmp(&self, other: &Name) -> Option<Ordering> {
        Some(self.cmp(other))
    }
}

impl Ord for Name {
    ghost cmp = { slice_cmp nat_cmp };

    ghost total = { Prim.search (comparing, rules) };

    ghost matches_partial_cmp = { Prim.search (comparing, rules) };

    ghost matches_eq = { Prim.search (comparing, rules) };

    fn cmp(&self, other: &Name) -> Ordering {
        self.chars.as_slice().cmp(other.chars.as_slice())
    }
}

/// Printed characters, as the list of its characters.
#[derive(Debug, Drop)]
pub struct Chars {
    chars: Vec<char>,
}

impl Model for Chars {
    ghost use Rattle.std.specs.Prelude.{List, ℕ};

    ghost Value = { List ℕ };

    ghost view = { λ n. n.chars.items };
}

impl Chars {
    pub fn new(alloc: Global) -> Chars
        ensures { result ≡ [] }
    {
        Chars {
            chars: Vec::new(alloc),
        }
    }

    /// These characters, without taking memory.
    pub fn from_vec(chars: Vec<char>) -> Chars
        ensures { result ≡ chars.items }
    {
        Chars { chars }
    }

    /// The characters, without taking memory.
    pub fn into_vec(self) -> Vec<char>
        ensures { result.items ≡ self }
    {
        let Chars { chars } = self;
        chars
    }

    pub fn as_slice(&self) -> &[char]
        ensures { result.now ≡ self.now }
    {
        self.chars.as_slice()
    }

    pub fn push(&mut self, c: char) -> Result<(), AllocError>
        ensures ok { OnOk result (self.new ≡ self.old ++ c ∷ []) }
        ensures err { OnErr result (self.new ≡ self.old) }
    {
        self.chars.push(c)?;
        Ok(())
    }

    pub fn copy(&self, alloc: Global) -> Result<Chars, AllocError>
        ensures { IfOk result (λ c. c ≡ self.now) }
    {
        Ok(Chars {
            chars: Vec::from_slice(alloc, self.chars.as_slice())?,
        })
    }

    pub fn same(&self, other: &Chars) -> bool
        ensures { IsTrue result ↔ (self.now ≡ other.now) }
    {
        self.chars.as_slice() == other.chars.as_slice()
    }
}

pub type Names = Items<Name>;

pub fn copy_names(alloc: Global, all: &[Name]) -> Result<Names, AllocError>
    ensures { IfOk result (λ c. c ≡ all.now) }
{
    let mut out = Items::new(alloc);
    for name in all {
        out.push(name.copy(alloc)?)?;
    }
    Ok(out)
}

/// A copy, where there is a name.
pub fn copy_some_name(alloc: Global, name: &Option<Name>) -> Result<Option<Name>, AllocError>
    ensures { IfOk result (λ c. c ≡ name.now) }
{
    match name {
        Some(name) => Ok(Some(name.copy(alloc)?)),
        None => Ok(None),
    }
}
