//! The words of a line.
ghost use Rattle.std.specs.Prelude.{◌≡◌, ◌==◌, map, IfOk};
ghost use Rattle.std.specs.List.{slice_split};
ghost use Rattle.transcript.specs.Reading.{parts, IsPlain, alone_entry, told_of, answer_of, entry_of};
ghost use Rattle.std.specs.Prelude.{Some};
ghost use Rattle.transcript.specs.Print.{entry_line, IsEntry, IsPrintable};
ghost use Rattle.transcript.specs.declared.entry.Entry.{Entry};

use crate::answers::{read_bad, read_edit, read_field, read_refused, read_run, read_stop};
use crate::ends::read_end;
use crate::entry::Entry;
use crate::reports::{read_pen, read_robot};
use km_base::Memory;
use std::alloc::{AllocError, Global};

/// The parts of a text between its blanks.
pub fn words_of(alloc: Global, text: &str) -> Result<Vec<&str>, AllocError>
    ensures { IfOk result (λ words. map (λ w. w.now) words.items ≡ slice_split (λ b. b == 32) text.now) }
{
    text.split(' ').collect(alloc)
}

fn alone_entry(word: &str) -> Option<Entry>
    ensures { result ≡ alone_entry word.now }
{
    if word == "waited" {
        Some(Entry::Waited)
    } else if word == "bye" {
        Some(Entry::Bye)
    } else {
        None
    }
}

/// The entry of a run that the words are.
fn read_told(alloc: Global, word: &str, words: &[&str]) -> Result<Option<Entry>, Memory>
    ensures { IfOk result (λ e. e ≡ told_of word.now (map (λ w. w.now) words.now)) }
{
    if word == "robot" {
        read_robot(alloc, words)
    } else if word == "pen" {
        read_pen(alloc, words)
    } else if word == "end" {
        read_end(alloc, words)
    } else if word == "refused" {
        read_refused(alloc, words)
    } else {
        Ok(None)
    }
}

/// The entry that the words are, of those that answer a request and those of a run.
fn read_answer(alloc: Global, word: &str, words: &[&str]) -> Result<Option<Entry>, Memory>
    ensures { IfOk result (λ e. e ≡ answer_of word.now (map (λ w. w.now) words.now)) }
{
    if word == "edit" {
        read_edit(alloc, words)
    } else if word == "field" {
        read_field(alloc, words)
    } else if word == "run" {
        read_run(alloc, words)
    } else if word == "stop" {
        read_stop(alloc, words)
    } else if word == "bad" {
        read_bad(alloc, words)
    } else {
        read_told(alloc, word, words)
    }
}

/// The entry that the words are, an output and a margin aside.
pub fn read_words(alloc: Global, words: &[&str]) -> Result<Option<Entry>, Memory>
    ensures { IfOk result (λ e. e ≡ entry_of (map (λ w. w.now) words.now)) }
{
    let Some((word, words)) = words.split_first() else {
        return Ok(None);
    };
    if words.is_empty() {
        Ok(alone_entry(word))
    } else {
        read_answer(alloc, word, words)
    }
}

/// The words of an entry's line are read as that entry, an output and a margin aside.
fn plain_again()
    ensures { (e : Entry) → IsEntry e → IsPrintable e → IsPlain e → entry_of (parts (entry_line e)) ≡ Some e }
{}
