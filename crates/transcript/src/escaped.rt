//! Outputs, read from their lines.
ghost use Rattle.std.specs.Prelude.{◌≡◌, ℕ, List, ◌∷◌, ◌++◌, Some, false, true, IfOk};
ghost use Rattle.std.specs.Str.{chars, all_scalars};
ghost use Rattle.transcript.specs.declared.entry.Entry.TheVariants.{Out};
ghost use Rattle.transcript.specs.Print.{entry_line, IsNumber};
ghost use Rattle.transcript.specs.Reading.{unescaped};

use crate::entry::Entry;
use decimals::read_number;
use km_base::Memory;
use kumir_tree::Chars;
use std::alloc::{AllocError, Global};

/// The character that stands after a reverse solidus.
fn escape_of(c: char) -> char
    ensures { (rest : List ℕ) → result ∷ unescaped false rest ≡ unescaped true (c ∷ rest) }
{
    if c == 'n' { '\n' } else { c }
}

/// The text of these characters, where escapes stand for their characters.
fn unescape(alloc: Global, text: &[char]) -> Result<Vec<char>, AllocError>
    ensures { IfOk result (λ out. out.items ≡ unescaped false text.now) }
{
    let mut out = Vec::new(alloc);
    let mut after = false;
    for c in text {
        if after {
            out.push(escape_of(*c)).map_err(AllocError::from)?;
            after = false;
        } else if *c == '\\' {
            after = true;
        } else {
            out.push(*c).map_err(AllocError::from)?;
        }
    }
    Ok(out)
}

#[tactic(auto, using(std::proofs::lemmas::Str::chars_from_encodes))]
fn characters(alloc: Global, text: &str) -> Result<Vec<char>, AllocError>
    ensures { IfOk result (λ all. all.items ≡ chars text.now) }
{
    text.chars().collect(alloc)
}

/// The text that prints as this.
fn read_text(alloc: Global, text: &str) -> Result<Chars, AllocError>
    ensures { IfOk result (λ out. out ≡ unescaped false (chars text.now)) }
{
    let escaped = characters(alloc, text)?;
    let out = unescape(alloc, escaped.as_slice())?;
    Ok(Chars::from_vec(out))
}

/// The output of its line.
pub fn read_out(alloc: Global, line: &str) -> Result<Option<Entry>, Memory>
    ensures { (run : ℕ) (text : List ℕ) → IsNumber run → all_scalars text ≡ true → line.now ≡ entry_line (Out run text) → IfOk result (λ e. e ≡ Some (Out run text)) }
{
    let Some((_, rest)) = line.split_once(' ') else {
        return Ok(None);
    };
    let Some((run, text)) = rest.split_once(' ') else {
        return Ok(None);
    };
    let text = read_text(alloc, text)?;
    match read_number(alloc, run)? {
        Some(run) => Ok(Some(Entry::Out { run, text })),
        None => Ok(None),
    }
}
