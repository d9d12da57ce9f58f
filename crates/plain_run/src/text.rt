//! The bytes of an input as a text, or why they are none (docs/PROGRAM.md, "Statuses" and "Limits").

ghost use Rattle.std.specs.Prelude.{◌≡◌, ◌⊎◌, ◌≤◌, ◌+◌, All, true, map, length, IfOk, IfErr, OnOk, MatchOption};
ghost use Rattle.std.specs.Str.{chars};
ghost use Rattle.std.specs.Str.Lines.{lines};
ghost use Rattle.km_base.specs.Limits.{text_bytes, text_lines};
ghost use Rattle.kumir_tree.specs.Lines.{lines_of, without_mark};
ghost use Rattle.km_ports.specs.declared.status.Status.TheVariants as status;
ghost use Rattle.plain_run.specs.Feeds.{HasNoFeed, weight};
ghost use Rattle.plain_run.specs.Texts.{AreLines, AreShort, IsFirstLong, Exceed, IsText, IsRefusedAs, says_no_text};

use km_base::limits::{LINE_CHARACTERS, TEXT_BYTES, TEXT_LINES};
use km_ports::{Excess, Status};
use std::alloc::{AllocError, Global};

// The text without a leading U+FEFF.
fn unmarked(text: &str) -> &str
    ensures { result.now ≡ without_mark text.now }
{
    match text.strip_prefix('\u{feff}') {
        Some(rest) => rest,
        None => text,
    }
}

fn lines_of(alloc: Global, text: &str) -> Result<Vec<&str>, AllocError>
    ensures { IfOk result (λ found. map (λ line. line.now) found.items ≡ lines text.now) }
{
    text.lines().collect(alloc)
}

// How many characters the line has.
fn width_of(line: &str) -> usize
    ensures { result ≡ length (chars line.now) }
{
    line.chars().count()
}

// The place of the first line with more characters than a line may have, counted from 1.
fn first_long(lines: &[&str]) -> Option<u32>
    requires { length lines.now ≤ text_lines }
    ensures { MatchOption result (AreShort (map (λ line. chars line.now) lines.now)) (λ number. IsFirstLong (map (λ line. chars line.now) lines.now) number) }
{
    for (i, line) in lines.iter().enumerate() {
        if width_of(line) > LINE_CHARACTERS {
            return Some(i as u32 + 1);
        }
    }
    None
}

// Which limit the lines pass.
fn excess_of(lines: &[&str]) -> Option<Excess>
    ensures { MatchOption result (AreLines (map (λ line. chars line.now) lines.now)) (λ excess. Exceed (map (λ line. chars line.now) lines.now) excess) }
{
    if lines.len() > TEXT_LINES {
        return Some(Excess::Lines);
    }
    match first_long(lines) {
        Some(line) => Some(Excess::Characters { line }),
        None => None,
    }
}

// The lines of a text in UTF-8, where they are within the limits.
fn limited_lines(alloc: Global, text: &str) -> Result<Vec<&str>, Status>
    ensures lines { IfOk result (λ found. map (λ line. chars line.now) found.items ≡ lines_of text.now) }
    ensures sizes { IfOk result (λ found. All (λ line. length line.now ≤ length text.now + 1) found.items) }
    ensures feeds { IfOk result (λ found. All (λ line. HasNoFeed line.now) found.items) }
    ensures weight { IfOk result (λ found. weight (map (λ line. line.now) found.items) ≤ length text.now + 1) }
    ensures within { OnOk result (AreLines (lines_of text.now)) }
    ensures refused { IfErr result (λ s. (s ≡ status.Memory) ⊎ ((excess : Excess) × (s ≡ status.TooLong excess) × Exceed (lines_of text.now) excess)) }
{
    let lines = match lines_of(alloc, unmarked(text)) {
        Ok(lines) => lines,
        Err(refused) => return Err(Status::from(refused)),
    };
    match excess_of(lines.as_slice()) {
        Some(excess) => Err(Status::TooLong(excess)),
        None => Ok(lines),
    }
}

/// The lines of the bytes, where these are a text. Else the status is that of the first cause for which they are none,
/// or `Memory`.
pub fn text_lines(alloc: Global, bytes: &[u8]) -> Result<Vec<&str>, Status>
    requires { length bytes.now ≤ text_bytes }
    ensures text { OnOk result (IsText bytes.now) }
    ensures lines { IfOk result (λ found. map (λ line. chars line.now) found.items ≡ lines_of bytes.now) }
    ensures sizes { IfOk result (λ found. All (λ line. length line.now ≤ length bytes.now + 1) found.items) }
    ensures feeds { IfOk result (λ found. All (λ line. HasNoFeed line.now) found.items) }
    ensures weight { IfOk result (λ found. weight (map (λ line. line.now) found.items) ≤ length bytes.now + 1) }
    ensures refused { IfErr result (λ s. (s ≡ status.Memory) ⊎ ((says_no_text s ≡ true) × IsRefusedAs bytes.now s)) }
{
    match str::from_utf8(bytes) {
        Ok(text) => limited_lines(alloc, text),
        Err(error) => Err(Status::NotUtf8 {
            place: error.valid_up_to() as u64,
        }),
    }
}
