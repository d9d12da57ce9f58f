//! What is counted over the entries of a transcript, and what is read off them.

ghost use Rattle.std.specs.Prelude.{◌≡◌, ◌++◌, ◌+◌, ◌<◌, length, IfOk, OnOk};
ghost use Rattle.std.specs.List.{flat_map, sum_by};
ghost use Rattle.script_lines.specs.Answer.{is_edit, newest};
ghost use Rattle.transcript.specs.Print.{print};
ghost use Rattle.sample_maker.specs.Summaries.{mark_count, output_of};

use km_base::Memory;
use kumir_tree::Chars;
use std::alloc::{AllocError, Global};
use transcript::Entry;

// Whether the entry says that an edit made a version.
fn is_edit(entry: &Entry) -> bool
    ensures { result ≡ is_edit entry.now }
{
    matches!(entry, Entry::Edit { .. })
}

/// The number of the newest version: how many edits made one.
pub fn newest_version(entries: &[Entry]) -> u32
    requires { length (print entries.now) < 4294967295 }
    ensures { result ≡ newest entries.now }
{
    let mut count = 0;
    for entry in entries {
        if is_edit(entry) {
            count += 1;
        }
    }
    count
}

// How many marks the entry shows.
fn mark_count(entry: &Entry) -> usize
    ensures { result ≡ mark_count entry.now }
{
    match entry {
        Entry::Margin { margin, .. } => margin.marks().len(),
        _ => 0,
    }
}

/// How many marks all margins have together.
pub fn count_marks(entries: &[Entry]) -> u32
    requires { length (print entries.now) < 4294967295 }
    ensures { result ≡ sum_by mark_count entries.now }
{
    let mut count = 0;
    for entry in entries {
        count += mark_count(entry) as u32;
    }
    count
}

// Puts a text behind another.
fn push_text(out: &mut Chars, text: &[char]) -> Result<(), AllocError>
    ensures { OnOk result (out.new ≡ out.old ++ text.now) }
{
    for c in text {
        out.push(*c)?;
    }
    Ok(())
}

// Puts the output that the entry shows behind a text.
fn push_output(out: &mut Chars, entry: &Entry) -> Result<(), AllocError>
    ensures { OnOk result (out.new ≡ out.old ++ output_of entry.now) }
{
    match entry {
        Entry::Out { text, .. } => push_text(out, text.as_slice()),
        _ => Ok(()),
    }
}

/// The outputs, one behind the other.
pub fn joined_outputs(alloc: Global, entries: &[Entry]) -> Result<Chars, Memory>
    ensures { IfOk result (λ text. text ≡ flat_map output_of entries.now) }
{
    let mut out = Chars::new(alloc);
    for entry in entries {
        push_output(&mut out, entry)?;
    }
    Ok(out)
}
