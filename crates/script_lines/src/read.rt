//! Request lines.
ghost use Rattle.std.specs.Prelude.{◌≡◌, ◌==◌, ◌||◌, map, length, slice_index, IfOk, MatchOption, true, false};
ghost use Rattle.std.specs.List.{slice_split};
ghost use Rattle.script_lines.specs.Lines.{is_plain};
ghost use Rattle.script_lines.specs.Words.{short_number_of, value_of, values_of, edit_line, field_line, run_head, line_of_words, is_nothing, request_line};

use crate::request::Ask;
use decimals::{read_number, read_whole};
use km_base::Memory;
use km_base::limits::{ADDED_LINES, FIELD_LINES, SCRIPT_LINE_BYTES};
use kumir_values::{Value, Values};
use std::alloc::{AllocError, Global};

/// What stands on a line where a request line is due.
#[derive(Debug, Drop)]
pub enum RequestLine {
    /// No request.
    Nothing,
    /// A request by itself.
    Alone(Ask),
    /// An edit, after which its added lines follow.
    EditHead { from: u32, count: u32, added: u32 },
    /// A field, after which that many lines follow.
    FieldHead { lines: u32 },
}

fn read_short_number(alloc: Global, word: &str) -> Result<Option<u32>, Memory>
    ensures { IfOk result (λ n. n ≡ short_number_of word.now) }
{
    if word.len() <= 9 {
        read_number(alloc, word)
    } else {
        Ok(None)
    }
}

fn read_value(alloc: Global, word: &str) -> Result<Option<Value>, Memory>
    ensures { IfOk result (λ v. v ≡ value_of word.now) }
{
    if word == "да" {
        return Ok(Some(Value::Truth(true)));
    }
    if word == "нет" {
        return Ok(Some(Value::Truth(false)));
    }
    match read_whole(alloc, word)? {
        Some(number) => Ok(Some(Value::Whole(number))),
        None => Ok(None),
    }
}

/// The values that the words are, where each is one.
fn read_values(alloc: Global, words: &[&str]) -> Result<Option<Values>, Memory>
    ensures { IfOk result (λ vs. vs ≡ values_of (map (λ w. w.now) words.now)) }
{
    let mut values = Values::new(alloc);
    for word in words {
        match read_value(alloc, word)? {
            Some(value) => values.push(value)?,
            None => return Ok(None),
        }
    }
    Ok(Some(values))
}

fn read_edit(alloc: Global, words: &[&str]) -> Result<RequestLine, Memory>
    ensures { IfOk result (λ l. l ≡ edit_line (map (λ w. w.now) words.now)) }
{
    if words.len() != 3 {
        return Ok(RequestLine::Alone(Ask::Bad));
    }
    let from = read_short_number(alloc, words[0])?;
    let count = read_short_number(alloc, words[1])?;
    let added = read_short_number(alloc, words[2])?;
    match (from, count, added) {
        (Some(from), Some(count), Some(added)) if added <= ADDED_LINES => Ok(RequestLine::EditHead {
            from,
            count,
            added,
        }),
        _ => Ok(RequestLine::Alone(Ask::Bad)),
    }
}

fn read_field(alloc: Global, words: &[&str]) -> Result<RequestLine, Memory>
    ensures { IfOk result (λ l. l ≡ field_line (map (λ w. w.now) words.now)) }
{
    if words.len() != 1 {
        return Ok(RequestLine::Alone(Ask::Bad));
    }
    match read_number(alloc, words[0])? {
        Some(lines) if 1 <= lines && lines <= FIELD_LINES => Ok(RequestLine::FieldHead { lines }),
        _ => Ok(RequestLine::Alone(Ask::Bad)),
    }
}

fn read_run(alloc: Global, words: &[&str]) -> Result<RequestLine, Memory>
    ensures { IfOk result (λ l. l ≡ run_head (values_of (map (λ w. w.now) words.now))) }
{
    match read_values(alloc, words)? {
        Some(inputs) => Ok(RequestLine::Alone(Ask::Run(inputs))),
        None => Ok(RequestLine::Alone(Ask::Bad)),
    }
}

fn read_words(alloc: Global, words: &[&str]) -> Result<RequestLine, Memory>
    ensures { IfOk result (λ l. l ≡ line_of_words (map (λ w. w.now) words.now)) }
{
    let Some((word, words)) = words.split_first() else {
        return Ok(RequestLine::Alone(Ask::Bad));
    };
    if *word == "edit" {
        read_edit(alloc, words)
    } else if *word == "field" {
        read_field(alloc, words)
    } else if *word == "run" {
        read_run(alloc, words)
    } else if words.is_empty() && *word == "stop" {
        Ok(RequestLine::Alone(Ask::Stop))
    } else if words.is_empty() && *word == "wait" {
        Ok(RequestLine::Alone(Ask::Wait))
    } else {
        Ok(RequestLine::Alone(Ask::Bad))
    }
}

/// The parts of a line between its blanks.
fn words_of(alloc: Global, text: &str) -> Result<Vec<&str>, AllocError>
    ensures { IfOk result (λ words. map (λ w. w.now) words.items ≡ slice_split (λ b. b == 32) text.now) }
{
    text.split(' ').collect(alloc)
}

/// The text of a line that a request can have.
pub fn plain_text(line: &[u8]) -> Option<&str>
    ensures { MatchOption result (is_plain line.now ≡ false) (λ text. (is_plain line.now ≡ true) × (text.now ≡ line.now)) }
{
    if line.len() > SCRIPT_LINE_BYTES {
        return None;
    }
    match str::from_utf8(line) {
        Ok(text) => Some(text),
        Err(_) => None,
    }
}

/// What the line is where a request line is due.
pub fn read_request_line(alloc: Global, line: &[u8]) -> Result<RequestLine, Memory>
    ensures { IfOk result (λ l. l ≡ request_line line.now) }
{
    if line.is_empty() || line[0] == b'#' {
        return Ok(RequestLine::Nothing);
    }
    match plain_text(line) {
        Some(text) => {
            let words = words_of(alloc, text)?;
            read_words(alloc, words.as_slice())
        }
        None => Ok(RequestLine::Alone(Ask::Bad)),
    }
}
