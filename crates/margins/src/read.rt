//! Margins as they are read.
ghost use Rattle.std.specs.Prelude.{◌≡◌, ◌≢◌, ◌==◌, List, map, Some, IsErr, IfOk, IsErrOf, MatchResult};
ghost use Rattle.std.specs.List.{slice_split, list_all};
ghost use Rattle.margins.specs.declared.margin.Mark.{Mark};
ghost use Rattle.margins.specs.Marks.{IsMargin, IsMark, HasFaultCodes, is_fault_code};
ghost use Rattle.margins.specs.Printed.{mark_word, printed_margin};

use crate::margin::{Margin, Mark};
use crate::print::print_margin;
use km_base::Memory;
use kumir_tree::fault_codes::FAULT_CODES;
use std::alloc::{AllocError, Global};

/// Why a text was not read as a margin.
#[derive(Clone, Copy, Debug, PartialEq, Eq)]
pub enum MarginRefusal {
    /// No such margin prints as this text.
    NotMargin,
    Memory,
}

impl From<Memory> for MarginRefusal {
    ghost use Rattle.std.specs.Prelude.{◌≡◌};
    ghost use Rattle.margins.specs.declared.read.MarginRefusal.TheVariants.{Memory};

    ghost from_gives = { λ m e. e ≡ Memory };

    fn from(_refused: Memory) -> MarginRefusal {
        MarginRefusal::Memory
    }
}

/// The parts of a text between its blanks.
fn words_of(alloc: Global, text: &str) -> Result<Vec<&str>, AllocError>
    ensures { IfOk result (λ words. map (λ w. w.now) words.items ≡ slice_split (λ b. b == 32) text.now) }
{
    text.split(' ').collect(alloc)
}

/// The mark of a part of a printed margin.
fn read_mark(word: &str) -> Option<Mark>
    ensures { (m : Mark) → IsMark m → word.now ≡ mark_word m → result ≡ Some m }
{
    let Some((line, code)) = word.split_once(':') else {
        return None;
    };
    let Ok(line) = line.parse::<u32>() else {
        return None;
    };
    let Ok(code) = code.parse::<u16>() else {
        return None;
    };
    Some(Mark { line, code })
}

/// The margin of the parts of a printed margin, each without its blank. Any code may stand in it. For other parts it
/// answers any margin or none: print what it answers and compare.
pub fn read_words(alloc: Global, words: &[&str]) -> Result<Option<Margin>, Memory>
    ensures { (ms : List Mark) → IsMargin ms → map (λ w. w.now) words.now ≡ map mark_word ms → IfOk result (λ r. r ≡ Some ms) }
{
    let mut margin = Margin::new(alloc);
    for word in words {
        let Some(mark) = read_mark(word) else {
            return Ok(None);
        };
        if !margin.is_before(mark.line) {
            return Ok(None);
        }
        margin.push(mark)?;
    }
    Ok(Some(margin))
}

/// The margin that prints as this text, where there is one.
fn candidate(alloc: Global, text: &str) -> Result<Option<Margin>, Memory>
    ensures { (ms : List Mark) → IsMargin ms → text.now ≡ printed_margin ms → IfOk result (λ r. r ≡ Some ms) }
{
    let words = words_of(alloc, text)?;
    match words.as_slice().split_first() {
        Some((_, words)) => read_words(alloc, words),
        None => Ok(None),
    }
}

/// The margin that prints as this text. Any code may stand in it.
pub fn read_marks(alloc: Global, text: &str) -> Result<Margin, MarginRefusal>
    ensures printed { IfOk result (λ m. IsMargin m × (text.now ≡ printed_margin m)) }
    ensures not_margin { IsErrOf result MarginRefusal.NotMargin → (ms : List Mark) → IsMargin ms → text.now ≢ printed_margin ms }
    ensures read_again { (ms : List Mark) → IsMargin ms → text.now ≡ printed_margin ms → MatchResult result (λ m. m ≡ ms) (λ e. e ≡ MarginRefusal.Memory) }
{
    let Some(margin) = candidate(alloc, text)? else {
        return Err(MarginRefusal::NotMargin);
    };
    let printed = print_margin(alloc, &margin)?;
    if printed.as_str() == text {
        Ok(margin)
    } else {
        Err(MarginRefusal::NotMargin)
    }
}

fn is_fault_code(code: u16) -> bool
    ensures { result ≡ is_fault_code code }
{
    FAULT_CODES.iter().any(|known| *known == code)
}

/// Whether each mark has the code of a fault.
fn has_fault_codes(marks: &[Mark]) -> bool
    ensures { result ≡ list_all (λ m. is_fault_code m.code) marks.now }
{
    marks.iter().all(|mark| is_fault_code(mark.code))
}

/// The margin with codes of faults that prints as this text (docs/PROGRAM.md, "Transcript"). `NotMargin` comes
/// exactly where no such margin prints as it.
pub fn read_margin(alloc: Global, text: &str) -> Result<Margin, MarginRefusal>
    ensures printed { IfOk result (λ m. IsMargin m × HasFaultCodes m × (text.now ≡ printed_margin m)) }
    ensures not_margin { IsErrOf result MarginRefusal.NotMargin → (ms : List Mark) → IsMargin ms → HasFaultCodes ms → text.now ≢ printed_margin ms }
    ensures read_again { (ms : List Mark) → IsMargin ms → HasFaultCodes ms → text.now ≡ printed_margin ms → MatchResult result (λ m. m ≡ ms) (λ e. e ≡ MarginRefusal.Memory) }
    ensures refused { ((ms : List Mark) → IsMargin ms → HasFaultCodes ms → text.now ≢ printed_margin ms) → IsErr result }
{
    let margin = read_marks(alloc, text)?;
    if has_fault_codes(margin.marks()) {
        Ok(margin)
    } else {
        Err(MarginRefusal::NotMargin)
    }
}
