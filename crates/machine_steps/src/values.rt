//! Operators and built-in algorithms on values.
ghost use Rattle.std.specs.Prelude.{◌≡◌, ◌∷◌, [], not};
ghost use Rattle.kumir_meaning.specs.Operators.{number_of, turns_of, is_yes, as_value, same_value, below, combined, negated, first_number, second_number, applied};

use kumir_names::BuiltIn;
use kumir_tree::Op;
use kumir_values::{RunFault, Value, add, div, iabs, imax, imin, mul, neg, power, rem, sub};

/// The number of a value of `цел`.
pub fn number_in(value: Value) -> i32
    ensures { result ≡ number_of value }
{
    match value {
        Value::Whole(number) => number,
        Value::Truth(_) => 0,
    }
}

/// How many turns a count asks for.
pub fn turns_asked(value: Value) -> u32
    ensures { result ≡ turns_of value }
{
    u32::try_from(number_in(value)).unwrap_or(0)
}

/// Whether a value is `да`.
pub fn is_yes_value(value: Value) -> bool
    ensures { result ≡ is_yes value }
{
    match value {
        Value::Whole(_) => false,
        Value::Truth(truth) => truth,
    }
}

/// A number as a value.
pub fn to_value(number: Result<i32, RunFault>) -> Result<Value, RunFault>
    ensures { result ≡ as_value number }
{
    match number {
        Ok(number) => Ok(Value::Whole(number)),
        Err(fault) => Err(fault),
    }
}

/// Whether two values are the same.
fn is_same(a: Value, b: Value) -> bool
    ensures { result ≡ same_value a b }
{
    match (a, b) {
        (Value::Whole(a), Value::Whole(b)) => a == b,
        (Value::Truth(a), Value::Truth(b)) => a == b,
        (Value::Whole(_), Value::Truth(_)) | (Value::Truth(_), Value::Whole(_)) => false,
    }
}

/// Whether the first value is below the second.
fn is_below(a: Value, b: Value) -> bool
    ensures { result ≡ below a b }
{
    number_in(a) < number_in(b)
}

/// An operator between two values.
pub fn combine(op: Op, a: Value, b: Value) -> Result<Value, RunFault>
    ensures { result ≡ combined op a b }
{
    match op {
        Op::Or | Op::And => Ok(b),
        Op::Equal => Ok(Value::Truth(is_same(a, b))),
        Op::NotEqual => Ok(Value::Truth(!is_same(a, b))),
        Op::Less => Ok(Value::Truth(is_below(a, b))),
        Op::Greater => Ok(Value::Truth(is_below(b, a))),
        Op::LessOrEqual => Ok(Value::Truth(!is_below(b, a))),
        Op::GreaterOrEqual => Ok(Value::Truth(!is_below(a, b))),
        Op::Plus => to_value(add(number_in(a), number_in(b))),
        Op::Minus => to_value(sub(number_in(a), number_in(b))),
        Op::Times => to_value(mul(number_in(a), number_in(b))),
        Op::Power => to_value(power(number_in(a), number_in(b))),
    }
}

/// The number of a value with the other sign.
pub fn negate(value: Value) -> Result<Value, RunFault>
    ensures { result ≡ negated value }
{
    to_value(neg(number_in(value)))
}

/// The number of the first value; 0 where there is none.
pub fn first_in(values: &[Value]) -> i32
    ensures { result ≡ first_number values.now }
{
    match values {
        [first, ..] => number_in(*first),
        [] => 0,
    }
}

/// The number of the second value; 0 where there is none.
pub fn second_in(values: &[Value]) -> i32
    ensures { result ≡ second_number values.now }
{
    match values {
        [_, second, ..] => number_in(*second),
        [_] | [] => 0,
    }
}

/// A built-in algorithm on values.
pub fn apply_to(what: BuiltIn, values: &[Value]) -> Result<Value, RunFault>
    ensures { result ≡ applied what values.now }
{
    let first = first_in(values);
    let second = second_in(values);
    match what {
        BuiltIn::Div => to_value(div(first, second)),
        BuiltIn::Mod => to_value(rem(first, second)),
        BuiltIn::Iabs => to_value(iabs(first)),
        BuiltIn::Imin => to_value(imin(first, second)),
        BuiltIn::Imax => to_value(imax(first, second)),
    }
}
