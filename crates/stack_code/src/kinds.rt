//! Kinds of the operands at a place.
ghost use Rattle.std.specs.Prelude.{◌≡◌, [], ◌∷◌, Some, None, IfOk, OnOk, OnErr, length, ◌↔◌, IsTrue};
ghost use Rattle.stack_code.specs.Operands.{pop, pop_any, pop_numbers};

use kumir_tree::Kind;
use std::alloc::{AllocError, Global};
use std::marker::Model;

/// The kinds of the operands at a place. Contracts see them from the top.
#[derive(Drop)]
pub struct OperandKinds {
    kinds: Vec<Kind>,
}

impl Model for OperandKinds {
    ghost use Rattle.std.specs.Prelude.{List, reverse};
    ghost use Rattle.kumir_tree.specs.declared.kind.Kind.{Kind};

    ghost Value = { List Kind };

    ghost view = { λ k. reverse k.kinds.items };
}

impl OperandKinds {
    ghost use Rattle.stack_code.specs.Checking.{Applies};

    /// No operands.
    pub fn new(alloc: Global) -> OperandKinds
        ensures { result ≡ [] }
    {
        OperandKinds {
            kinds: Vec::new(alloc),
        }
    }

    /// How many there are.
    pub fn count(&self) -> usize
        ensures { result ≡ length self.now }
    {
        self.kinds.len()
    }

    /// Puts one on top.
    pub fn push(&mut self, kind: Kind) -> Result<(), AllocError>
        ensures { OnOk result (self.new ≡ kind ∷ self.old) }
    {
        self.kinds.push(kind)?;
        Ok(())
    }

    /// Takes the top away, of whatever kind. Answers whether there is one.
    pub fn pop_any(&mut self) -> bool
        ensures { Applies result (pop_any self.old) self.new }
    {
        self.kinds.pop().is_some()
    }

    /// Takes the top away, where it is of this kind. Answers whether it is.
    pub fn pop(&mut self, kind: Kind) -> bool
        ensures { Applies result (pop kind self.old) self.new }
    {
        match self.kinds.pop() {
            Some(found) => kind.is(found),
            None => false,
        }
    }

    /// Takes so many numbers away from the top. Answers whether they are there.
    pub fn pop_numbers(&mut self, count: u64) -> bool
        ensures { Applies result (pop_numbers count self.old) self.new }
    {
        let mut left = count;
        while left > 0 {
            if !self.pop(Kind::Whole) {
                return false;
            }
            left -= 1;
        }
        true
    }

    /// The same kinds.
    pub fn copy(&self, alloc: Global) -> Result<OperandKinds, AllocError>
        ensures { IfOk result (λ kinds. kinds ≡ self.now) }
    {
        Ok(OperandKinds {
            kinds: Vec::from_slice(alloc, self.kinds.as_slice())?,
        })
    }

    /// Whether these are the same kinds as the others.
    pub fn is_same(&self, other: &OperandKinds) -> bool
        ensures { IsTrue result ↔ (self.now ≡ other.now) }
    {
        self.kinds.as_slice() == other.kinds.as_slice()
    }
}
