//! Values and how they are printed.
ghost use Rattle.std.specs.Prelude.{◌≡◌, IfOk, string_bytes};
ghost use Rattle.kumir_values.specs.Values.{kind_of, printed};

use km_base::Memory;
use kumir_tree::Kind;
use sqlite_items::Items;
use std::alloc::Global;

/// A value of a run.
#[derive(Clone, Copy, Debug, PartialEq, Eq)]
pub enum Value {
    /// A value of `цел`.
    Whole(i32),
    /// A value of `лог`.
    Truth(bool),
}

impl Value {
    pub fn kind(self) -> Kind
        ensures { result ≡ kind_of self }
    {
        match self {
            Value::Whole(_) => Kind::Whole,
            Value::Truth(_) => Kind::Truth,
        }
    }
}

/// A list of values.
pub type Values = Items<Value>;

/// A number in plain decimal, with `-` before a negative one, or `да` or `нет` (docs/LANGUAGE.md, "Values").
pub fn print_value(alloc: Global, value: Value) -> Result<String, Memory>
    ensures { IfOk result (λ text. string_bytes text ≡ printed value) }
{
    match value {
        Value::Whole(number) => Ok(format!(in alloc; "{number}")?),
        Value::Truth(true) => Ok(String::from_str(alloc, "да")?),
        Value::Truth(false) => Ok(String::from_str(alloc, "нет")?),
    }
}
