//! Transcripts, read from their bytes.
ghost use Rattle.std.specs.Prelude.{◌≡◌, ◌<◌, ◌==◌, ◌++◌, [], ◌∷◌, ◌⊎◌, ◌≢◌, ℕ, List, false, Some, All, length, take, drop, IfOk, OnOk, IfSome, IsErrOf, MatchOption, MatchResult};
ghost use Rattle.std.specs.List.{position_from};
ghost use Rattle.transcript.specs.declared.entry.Entry.{Entry};
ghost use Rattle.transcript.specs.Print.{entry_line, printed_entry, print};
ghost use Rattle.transcript.specs.Entries.{IsShown, BeginsNoEntry, IsFirstBad};

use crate::entry::{Entries, Entry};
use crate::line::read_line;
use km_base::Memory;
use std::alloc::Global;

/// Why bytes were not read as a transcript.
#[derive(Clone, Copy, Debug, PartialEq, Eq)]
pub enum TranscriptRefusal {
    /// This line is the first that no entry prints. Lines are numbered from 1.
    NotEntry { line: u32 },
    Memory,
}

impl From<Memory> for TranscriptRefusal {
    ghost use Rattle.std.specs.Prelude.{◌≡◌};
    ghost use Rattle.transcript.specs.declared.entries.TranscriptRefusal.TheVariants.{Memory};

    ghost from_gives = { λ m e. e ≡ Memory };

    fn from(_refused: Memory) -> TranscriptRefusal {
        TranscriptRefusal::Memory
    }
}

/// Where the first line feed lies.
fn line_end(bytes: &[u8]) -> Option<usize>
    ensures place { result ≡ position_from (λ b. b == 10) 0 bytes.now }
    ensures bound { IfSome result (λ at. at < length bytes.now) }
{
    bytes.iter().position(|b| *b == b'\n')
}

/// The bytes before the first line feed, and those after it.
fn split_line(bytes: &[u8]) -> Option<(&[u8], &[u8])>
    ensures { MatchOption result (All (λ b. (b == 10) ≡ false) bytes.now) (λ r. All (λ b. (b == 10) ≡ false) r.0.now × (bytes.now ≡ r.0.now ++ 10 ∷ r.1.now)) }
{
    match line_end(bytes) {
        Some(at) => Some((&bytes[..at], &bytes[at + 1..])),
        None => None,
    }
}

/// The entry that prints as this line. None comes exactly where no entry does.
fn read_bytes(alloc: Global, line: &[u8]) -> Result<Option<Entry>, Memory>
    ensures { IfOk result (λ r. MatchOption r ((e : Entry) → IsShown e → line.now ≢ entry_line e) (λ e. IsShown e × (line.now ≡ entry_line e))) }
{
    match str::from_utf8(line) {
        Ok(text) => read_line(alloc, text),
        Err(_) => Ok(None),
    }
}

/// The entry whose print is a prefix of the bytes, and what follows it. None comes exactly where there is none.
fn read_first(alloc: Global, bytes: &[u8]) -> Result<Option<(Entry, &[u8])>, Memory>
    ensures { IfOk result (λ r. MatchOption r (BeginsNoEntry bytes.now) (λ p. IsShown p.0 × (bytes.now ≡ printed_entry p.0 ++ p.1.now))) }
{
    let Some((line, rest)) = split_line(bytes) else {
        return Ok(None);
    };
    match read_bytes(alloc, line)? {
        Some(entry) => Ok(Some((entry, rest))),
        None => Ok(None),
    }
}

fn push_entry(entries: &mut Entries, entry: Entry) -> Result<(), Memory>
    ensures { OnOk result (entries.new ≡ entries.old ++ entry ∷ []) }
{
    entries.push(entry)?;
    Ok(())
}

/// The entries whose print the bytes are (docs/PROGRAM.md, "Transcript"). `NotEntry` comes exactly where there are
/// none, with the first line that no entry prints; a last part without a line feed counts as a line.
pub fn read_entries(alloc: Global, bytes: &[u8]) -> Result<Entries, TranscriptRefusal>
    requires { length bytes.now < 4294967295 }
    ensures printed { IfOk result (λ es. All IsShown es × (bytes.now ≡ print es)) }
    ensures not_entry { (line : ℕ) → IsErrOf result (TranscriptRefusal.NotEntry line) → IsFirstBad bytes.now line }
    ensures read_again { (es : List Entry) → All IsShown es → bytes.now ≡ print es → MatchResult result (λ read. read ≡ es) (λ e. e ≡ TranscriptRefusal.Memory) }
    ensures refused { (line : ℕ) → IsFirstBad bytes.now line → MatchResult result (λ read. ⊥) (λ e. (e ≡ TranscriptRefusal.NotEntry line) ⊎ (e ≡ TranscriptRefusal.Memory)) }
{
    let mut entries = Entries::new(alloc);
    let mut rest = bytes;
    let mut line = 1;
    while !rest.is_empty() {
        let Some((entry, after)) = read_first(alloc, rest)? else {
            return Err(TranscriptRefusal::NotEntry { line });
        };
        push_entry(&mut entries, entry)?;
        rest = after;
        line += 1;
    }
    Ok(entries)
}

/// Each list of entries has one print, and no two share one.
pub fn one_print()
    ensures { (es fs : List Entry) → All IsShown es → All IsShown fs → print es ≡ print fs → es ≡ fs }
{}
