//! An entry, read from its line.
ghost use Rattle.std.specs.Prelude.{◌≡◌, ◌≢◌, ◌==◌, true, false, Some, IfOk, MatchOption};
ghost use Rattle.std.specs.Prelude.{All};
ghost use Rattle.std.specs.Str.{IsUtf8};
ghost use Rattle.transcript.specs.declared.entry.Entry.{Entry};
ghost use Rattle.transcript.specs.Print.{entry_line, IsEntry, IsPrintable};

use crate::entry::Entry;
use crate::escaped::read_out;
use crate::margin::read_margin;
use crate::print::push_line;
use crate::ranges::in_range;
use crate::words::{read_words, words_of};
use km_base::Memory;
use kumir_values::EndKind;
use performer_kit::Reply;
use std::alloc::Global;

/// The entry that prints as this line, where there is one.
fn candidate(alloc: Global, line: &str) -> Result<Option<Entry>, Memory>
    ensures { (e : Entry) → IsEntry e → IsPrintable e → line.now ≡ entry_line e → IfOk result (λ r. r ≡ Some e) }
{
    let words = words_of(alloc, line)?;
    let Some((word, rest)) = words.as_slice().split_first() else {
        return Ok(None);
    };
    if *word == "out" {
        read_out(alloc, line)
    } else if *word == "margin" {
        read_margin(alloc, rest)
    } else {
        read_words(alloc, words.as_slice())
    }
}

/// Whether the entry prints as a line.
fn is_printable(entry: &Entry) -> bool
    ensures yes { result ≡ true → IsPrintable entry.now }
    ensures no { result ≡ false → IsPrintable entry.now → ⊥ }
{
    match entry {
        Entry::Robot { reply, .. } => match reply {
            Reply::Drawn(_) => false,
            _ => true,
        },
        Entry::Pen { reply, .. } => match reply {
            Reply::Done => true,
            Reply::Drawn(_) => true,
            _ => false,
        },
        Entry::End { end, .. } => match end {
            EndKind::Memory => false,
            _ => true,
        },
        _ => true,
    }
}

/// Whether the entry prints as this line.
fn prints_as(alloc: Global, entry: &Entry, line: &str) -> Result<bool, Memory>
    ensures yes { IfOk result (λ b. b ≡ true → IsPrintable entry.now × (line.now ≡ entry_line entry.now)) }
    ensures no { IfOk result (λ b. b ≡ false → IsPrintable entry.now → line.now ≢ entry_line entry.now) }
{
    if !is_printable(entry) {
        return Ok(false);
    }
    let mut printed = String::new(alloc);
    push_line(alloc, &mut printed, entry)?;
    Ok(printed.as_str() == line)
}

/// The entry that prints as this line. None comes exactly where no entry does.
pub fn read_line(alloc: Global, line: &str) -> Result<Option<Entry>, Memory>
    ensures printed { IfOk result (λ r. MatchOption r ((e : Entry) → IsEntry e → IsPrintable e → line.now ≢ entry_line e) (λ e. IsEntry e × IsPrintable e × (line.now ≡ entry_line e))) }
    ensures read_again { (e : Entry) → IsEntry e → IsPrintable e → line.now ≡ entry_line e → IfOk result (λ r. r ≡ Some e) }
{
    let Some(entry) = candidate(alloc, line)? else {
        return Ok(None);
    };
    if prints_as(alloc, &entry, line)? {
        in_range(&entry);
        Ok(Some(entry))
    } else {
        Ok(None)
    }
}

/// The line of an entry is UTF-8 without a line feed.
pub fn lines_are_texts()
    ensures utf8 { (e : Entry) → IsEntry e → IsUtf8 (entry_line e) }
    ensures one { (e : Entry) → IsEntry e → All (λ c. (c == 10) ≡ false) (entry_line e) }
{}
