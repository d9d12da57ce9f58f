//! Outputs as characters.
ghost use Rattle.std.specs.Prelude.{◌≡◌, ◌++◌, ◌∷◌, [], List, IfOk, string_bytes};
ghost use Rattle.std.specs.Fmt.{signed_decimal};
ghost use Rattle.kumir_meaning.specs.Operators.{text_of};

use km_base::Memory;
use kumir_tree::Chars;
use kumir_values::Value;
use std::alloc::Global;

/// The bytes as characters.
fn chars_from(alloc: Global, bytes: &[u8]) -> Result<Chars, Memory>
    ensures { IfOk result (λ text. text ≡ bytes.now) }
{
    let mut text = Chars::new(alloc);
    for byte in bytes {
        text.push(char::from(*byte))?;
    }
    Ok(text)
}

/// The characters of a number.
fn number_text(alloc: Global, number: i32) -> Result<Chars, Memory>
    ensures { IfOk result (λ text. text ≡ signed_decimal number) }
{
    let printed = format!(in alloc; "{number}")?;
    chars_from(alloc, printed.as_bytes())
}

/// The characters that a value prints as.
pub fn value_text(alloc: Global, value: Value) -> Result<Chars, Memory>
    ensures { IfOk result (λ text. text ≡ text_of value) }
{
    match value {
        Value::Whole(number) => number_text(alloc, number),
        Value::Truth(true) => Ok(Chars::from_vec(Vec::from_slice(alloc, &['д', 'а'])?)),
        Value::Truth(false) => Ok(Chars::from_vec(Vec::from_slice(alloc, &['н', 'е', 'т'])?)),
    }
}

/// A line feed.
pub fn line_feed(alloc: Global) -> Result<Chars, Memory>
    ensures { IfOk result (λ text. text ≡ 10 ∷ []) }
{
    Ok(Chars::from_vec(Vec::from_slice(alloc, &['\n'])?))
}
