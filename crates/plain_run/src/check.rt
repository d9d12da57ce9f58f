//! The command `check`.

ghost use Rattle.std.specs.Prelude.{◌≡◌, ◌≤◌, ◌+◌, All, map, true, IfOk};
ghost use Rattle.std.specs.Str.{chars};
ghost use Rattle.std.specs.String.{string_bytes};
ghost use Rattle.km_base.specs.Limits.{text_bytes};
ghost use Rattle.text_versions.specs.Texts.{is_within, text_limits};
ghost use Rattle.plain_run.specs.Checked.{IsChecked, IsCheckRun, verdict};
ghost use Rattle.plain_run.specs.Feeds.{HasNoFeed, weight};
ghost use Rattle.plain_run.specs.Runs.{ports};
ghost use Rattle.plain_run.specs.Texts.{AreLines};
ghost use Rattle.incr_analysis.specs.Full.{Full};

use crate::analysis::margin_of;
use crate::ending::ended;
use crate::lines::owned_lines;
use crate::text::text_lines;
use km_base::Memory;
use km_base::limits::TEXT_BYTES;
use km_ports::{Sink, Source, Status, put_all, read_within};
use kumir_tree::Lines;
use margins::{Margin, print_lines};
use std::alloc::Global;
use text_versions::{Text, TextRefusal};

// The text of lines within the limits.
fn text_of(alloc: Global, lines: Lines) -> Result<Text, Memory>
    requires { is_within text_limits lines ≡ true }
    ensures { IfOk result (λ text. text ≡ lines) }
{
    match Text::from_lines(alloc, lines) {
        Ok(text) => Ok(text),
        Err(TextRefusal::TooLong) => unreachable!(),
        Err(TextRefusal::Memory) => Err(Memory),
    }
}

// The full analysis of lines within the limits.
fn margin_of_lines(alloc: Global, lines: &[&str]) -> Result<Margin, Memory>
    requires feeds { All (λ line. HasNoFeed line.now) lines.now }
    requires weight { weight (map (λ line. line.now) lines.now) ≤ text_bytes + 1 }
    requires within { AreLines (map (λ line. chars line.now) lines.now) }
    ensures { IfOk result (λ margin. Full (map (λ line. chars line.now) lines.now) margin) }
{
    let lines = owned_lines(alloc, lines)?;
    let text = text_of(alloc, lines)?.shared(alloc)?;
    margin_of(alloc, text)
}

// The status of a text with this margin.
fn verdict(margin: &Margin) -> Status
    ensures { result ≡ verdict margin.now }
{
    if margin.marks().is_empty() {
        Status::Fine
    } else {
        Status::Faults
    }
}

// What `check` answers: its status and its text.
#[derive(Drop)]
struct Answer {
    status: Status,
    text: String,
}

// The answer to lines within the limits.
fn answer_of(alloc: Global, lines: &[&str]) -> Result<Answer, Memory>
    requires feeds { All (λ line. HasNoFeed line.now) lines.now }
    requires weight { weight (map (λ line. line.now) lines.now) ≤ text_bytes + 1 }
    requires within { AreLines (map (λ line. chars line.now) lines.now) }
    ensures { IfOk result (λ answer. IsChecked (map (λ line. chars line.now) lines.now)
        answer.status (string_bytes answer.text)) }
{
    let margin = margin_of_lines(alloc, lines)?;
    let text = print_lines(alloc, &margin)?;
    Ok(Answer {
        status: verdict(&margin),
        text,
    })
}

/// Reads a text and prints its margin (docs/PROGRAM.md, "check"): a line for each line with a fault, with its code.
pub fn check_text<I: Source, O: Sink>(alloc: Global, input: &mut I, output: &mut O) -> Status
    ensures run { IsCheckRun (ports (I.state input.old) (I.state input.new)
        (O.state output.old) (O.state output.new)) result }
{
    let bytes = match read_within(alloc, input, TEXT_BYTES) {
        Ok(bytes) => bytes,
        Err(refusal) => return Status::from(refusal),
    };
    let lines = match text_lines(alloc, &bytes) {
        Ok(lines) => lines,
        Err(status) => return status,
    };
    match answer_of(alloc, lines.as_slice()) {
        Ok(answer) => ended(answer.status, put_all(output, answer.text.as_bytes())),
        Err(Memory) => Status::Memory,
    }
}
