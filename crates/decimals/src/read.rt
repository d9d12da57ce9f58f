//! Numbers as they are read. Each has one spelling: decimal, with no leading zero and no sign but a `-` before a
//! number below zero (docs/PROGRAM.md, "Script").
ghost use Rattle.std.specs.Prelude.{◌≡◌, IfOk};
ghost use Rattle.decimals.specs.Numbers.{number_of, whole_of, wide_of};

use km_base::Memory;
use std::alloc::Global;

/// The number of 64 bits that the word is. None comes exactly where the word is no such number in its one spelling.
pub fn read_wide(alloc: Global, word: &str) -> Result<Option<i64>, Memory>
    ensures { IfOk result (λ z. z ≡ wide_of word.now) }
{
    let Ok(number) = word.parse::<i64>() else {
        return Ok(None);
    };
    let printed = format!(in alloc; "{number}")?;
    if printed.as_str() == word {
        Ok(Some(number))
    } else {
        Ok(None)
    }
}

/// The number of the range of `цел` that the word is. None comes exactly where the word is no such number in its one
/// spelling.
pub fn read_whole(alloc: Global, word: &str) -> Result<Option<i32>, Memory>
    ensures { IfOk result (λ z. z ≡ whole_of word.now) }
{
    match read_wide(alloc, word)? {
        Some(number) => Ok(i32::try_from(number).ok()),
        None => Ok(None),
    }
}

/// The number of 32 bits without a sign that the word is. None comes exactly where the word is no such number in its
/// one spelling.
pub fn read_number(alloc: Global, word: &str) -> Result<Option<u32>, Memory>
    ensures { IfOk result (λ n. n ≡ number_of word.now) }
{
    match read_wide(alloc, word)? {
        Some(number) => Ok(u32::try_from(number).ok()),
        None => Ok(None),
    }
}
