//! The operands of an algorithm that runs.
ghost use Rattle.std.specs.Prelude.{◌≡◌, ◌≤◌, [], ◌∷◌, true, false, length, map, reverse, take, drop, OnOk, IfOk, IfSome, MatchOption};
ghost use Rattle.kumir_values.specs.declared.value.Value.TheVariants as Value;
ghost use Rattle.stack_code.specs.CodeState.{top, rest, numbers, paired};
ghost use Rattle.kumir_meaning.specs.Operators.{number_of};

use crate::values::number_in;
use km_base::Memory;
use kumir_values::{Bound, Value};
use smallvec::SmallVec;
use std::alloc::{AllocError, Global};
use std::marker::Model;

/// The numbers of some operands: up to six stand in it and take no memory, as the bounds of three dimensions.
pub type Numbers = SmallVec<i32, 6>;

/// The numbers of values.
fn numbers_in(alloc: Global, values: &[Value]) -> Result<Numbers, AllocError>
    ensures { IfOk result (λ found. found.items ≡ map number_of values.now) }
{
    let mut found = SmallVec::new(alloc);
    for value in values {
        found.push(number_in(*value))?;
    }
    Ok(found)
}

/// The numbers of values in pairs, as bounds; a last one alone is left out.
#[tactic(auto, using(crate::proofs::BoundPairs::one_more_pair, crate::proofs::BoundPairs::all_pairs))]
fn bounds_in(alloc: Global, values: &[Value]) -> Result<Vec<Bound>, AllocError>
    ensures { IfOk result (λ found. found.items ≡ paired (map number_of values.now)) }
{
    let mut found = Vec::new(alloc);
    for pair in 0..values.len() / 2 {
        found.push(Bound {
            low: number_in(values[2 * pair]),
            high: number_in(values[2 * pair + 1]),
        })?;
    }
    Ok(found)
}

/// The operands. Contracts see them from the top.
#[derive(Drop)]
pub struct Operands {
    values: Vec<Value>,
}

impl Model for Operands {
    ghost use Rattle.std.specs.Prelude.{List, reverse};
    ghost use Rattle.kumir_values.specs.declared.value.Value.{Value as V};

    ghost Value = { List V };

    ghost view = { λ o. reverse o.values.items };
}

impl Operands {
    /// None, with room for so many.
    pub fn new(alloc: Global, room: usize) -> Result<Operands, Memory>
        ensures { IfOk result (λ operands. operands ≡ []) }
    {
        Ok(Operands {
            values: Vec::with_capacity(alloc, room)?,
        })
    }

    /// How many there are.
    pub fn count(&self) -> usize
        ensures { result ≡ length self.now }
    {
        self.values.len()
    }

    /// Puts a value on top.
    pub fn push(&mut self, value: Value) -> Result<(), AllocError>
        ensures { OnOk result (self.new ≡ value ∷ self.old) }
    {
        self.values.push(value)?;
        Ok(())
    }

    /// Puts a value on top, and says whether it stands there; all stays where memory is wanted.
    #[inline(always)]
    pub fn push_or_keep(&mut self, value: Value) -> bool
        ensures pushed { result ≡ true → self.new ≡ value ∷ self.old }
        ensures kept { result ≡ false → self.new ≡ self.old }
    {
        self.values.push(value).is_ok()
    }

    /// Takes the top away, if there is one.
    pub fn take(&mut self) -> Option<Value>
        ensures { MatchOption result ((self.old ≡ []) × (self.new ≡ [])) (λ value. self.old ≡ value ∷ self.new) }
    {
        self.values.pop()
    }

    /// Takes the top away; `нет` where there is none.
    pub fn pop(&mut self) -> Value
        ensures value { result ≡ top self.old }
        ensures left { self.new ≡ rest self.old }
    {
        match self.take() {
            Some(value) => value,
            None => Value::Truth(false),
        }
    }

    /// The operands on top, so many or all, in the order in which they were pushed.
    pub fn last(&self, count: usize) -> &[Value]
        ensures { result.now ≡ reverse (take count self.now) }
    {
        &self.values.as_slice()[self.values.len().saturating_sub(count)..]
    }

    /// The two operands on top, where both are numbers, in the order in which they were pushed.
    #[inline(always)]
    #[tactic(auto, using(crate::proofs::OperandLists::two_on_top))]
    pub fn two_numbers(&self) -> Option<(i32, i32)>
        ensures { IfSome result (λ two. self.now ≡ Value.Whole two.1 ∷ Value.Whole two.0 ∷ rest (rest self.now)) }
    {
        match self.last(2) {
            [Value::Whole(first), Value::Whole(second)] => Some((*first, *second)),
            _ => None,
        }
    }

    /// The operand on top, where it is a number.
    #[inline(always)]
    #[tactic(auto, using(crate::proofs::OperandLists::one_number))]
    pub fn top_number(&self) -> Option<i32>
        ensures number { IfSome result (λ number. numbers 1 self.now ≡ number ∷ []) }
        ensures there { IfSome result (λ number. 1 ≤ length self.now) }
    {
        match self.last(1) {
            [Value::Whole(number)] => Some(*number),
            _ => None,
        }
    }

    /// A number and the value on top of it.
    #[inline(always)]
    #[tactic(auto, using(crate::proofs::OperandLists::one_below))]
    pub fn number_and_value(&self) -> Option<(i32, Value)>
        ensures number { IfSome result (λ both. numbers 1 (rest self.now) ≡ both.0 ∷ []) }
        ensures value { IfSome result (λ both. top self.now ≡ both.1) }
    {
        match self.last(2) {
            [Value::Whole(number), value] => Some((*number, *value)),
            _ => None,
        }
    }

    /// Two numbers and the value on top of them.
    #[inline(always)]
    #[tactic(auto, using(crate::proofs::OperandLists::two_below))]
    pub fn two_numbers_and_value(&self) -> Option<(i32, i32, Value)>
        ensures numbers { IfSome result (λ three. numbers 2 (rest self.now) ≡ three.0 ∷ three.1 ∷ []) }
        ensures value { IfSome result (λ three. top self.now ≡ three.2) }
    {
        match self.last(3) {
            [Value::Whole(first), Value::Whole(second), value] => Some((*first, *second, *value)),
            _ => None,
        }
    }

    /// Puts a value in the place of the one on top.
    #[inline(always)]
    pub fn replace_top(&mut self, value: Value)
        requires { 1 ≤ length self.old }
        ensures { self.new ≡ value ∷ drop 1 self.old }
    {
        let top = self.values.len() - 1;
        self.values[top] = value;
    }

    /// Puts a value in the place of the two on top.
    #[inline(always)]
    pub fn replace_two(&mut self, value: Value)
        requires { 2 ≤ length self.old }
        ensures { self.new ≡ value ∷ rest (rest self.old) }
    {
        let _ = self.values.pop();
        let top = self.values.len() - 1;
        self.values[top] = value;
    }

    /// The numbers on top, so many or all, in the order in which they were pushed. Up to six take no memory.
    pub fn last_numbers(&self, alloc: Global, count: usize) -> Result<Numbers, AllocError>
        ensures { IfOk result (λ found. found.items ≡ numbers count self.now) }
    {
        numbers_in(alloc, self.last(count))
    }

    /// So many numbers on top in pairs, as bounds.
    pub fn last_bounds(&self, alloc: Global, count: usize) -> Result<Vec<Bound>, AllocError>
        ensures { IfOk result (λ found. found.items ≡ paired (numbers count self.now)) }
    {
        bounds_in(alloc, self.last(count))
    }

    /// Takes so many away from the top.
    pub fn discard(&mut self, count: usize)
        ensures { self.new ≡ drop count self.old }
    {
        let kept = self.values.as_slice().len().saturating_sub(count);
        self.values.truncate(kept);
    }
}
