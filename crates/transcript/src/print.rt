//! Entries as they are printed.
ghost use Rattle.std.specs.Prelude.{◌≡◌, ◌≢◌, ◌++◌, codes, IfOk, OnOk};
ghost use Rattle.std.specs.Fmt.{decimal, signed_decimal};
ghost use Rattle.std.specs.Str.{encode_utf8_all};
ghost use Rattle.std.specs.String.{string_bytes};
ghost use Rattle.kumir_values.specs.declared.run_end.EndKind.{EndKind};
ghost use Rattle.performer_kit.specs.Commands.{printed_command};
ghost use Rattle.margins.specs.Printed.{printed_margin};
ghost use Rattle.transcript.specs.Print.{escaped_char, escaped, fault_word, end_text, reply_text, entry_line, printed_entry, IsPrintable};
ghost use Rattle.transcript.specs.Entries.{IsShown};

use crate::entry::Entry;
use crate::ranges::in_range;
use km_base::Memory;
use kumir_values::{EndKind, RunFault};
use margins::{Margin, print_margin};
use performer_kit::{Command, Reply, Segment, print_command};
use std::alloc::{AllocError, Global};
use std::fmt::Write;

fn push_escaped_char(out: &mut String, c: char) -> Result<(), AllocError>
    ensures { OnOk result (string_bytes out.new ≡ string_bytes out.old ++ encode_utf8_all (escaped_char c)) }
{
    match c {
        '\\' => out.push_str("\\\\"),
        '\n' => out.push_str("\\n"),
        _ => out.push(c),
    }
}

fn push_escaped(out: &mut String, text: &[char]) -> Result<(), AllocError>
    ensures { OnOk result (string_bytes out.new ≡ string_bytes out.old ++ encode_utf8_all (escaped text.now)) }
{
    for c in text {
        push_escaped_char(out, *c)?;
    }
    Ok(())
}

/// How a fault of a run prints.
fn fault_word(fault: RunFault) -> &'static str
    ensures { result.now ≡ fault_word fault }
{
    match fault {
        RunFault::Unset => "unset",
        RunFault::Range => "range",
        RunFault::Divisor => "divisor",
        RunFault::Exponent => "exponent",
        RunFault::StepZero => "step",
        RunFault::Index => "index",
        RunFault::Bounds => "bounds",
        RunFault::Elements => "elements",
        RunFault::Depth => "depth",
        RunFault::NoInput => "no-input",
        RunFault::InputType => "input-type",
        RunFault::NoValue => "no-value",
    }
}

fn push_end(out: &mut String, end: EndKind) -> Result<(), AllocError>
    requires { end ≢ EndKind.Memory }
    ensures { OnOk result (string_bytes out.new ≡ string_bytes out.old ++ end_text end) }
{
    match end {
        EndKind::Done => out.push_str("done"),
        EndKind::Quit => out.push_str("quit"),
        EndKind::Assert { line } => write!(out, "assert {line}"),
        EndKind::Fault { line, fault } => {
            let word = fault_word(fault);
            write!(out, "fault {line} {word}")
        }
        EndKind::Wall { line } => write!(out, "wall {line}"),
        EndKind::Steps => out.push_str("steps"),
        EndKind::Stopped => out.push_str("stopped"),
        EndKind::Memory => unreachable!(),
    }
}

fn push_segment(out: &mut String, segment: Segment) -> Result<(), AllocError>
    ensures { OnOk result (string_bytes out.new ≡ string_bytes out.old ++ reply_text (Reply.Drawn segment)) }
{
    let Segment { x1, y1, x2, y2 } = segment;
    write!(out, "line {x1} {y1} {x2} {y2}")
}

fn push_reply(out: &mut String, reply: Reply) -> Result<(), AllocError>
    ensures { OnOk result (string_bytes out.new ≡ string_bytes out.old ++ reply_text reply) }
{
    match reply {
        Reply::Done => out.push_str("done"),
        Reply::Yes => out.push_str("да"),
        Reply::No => out.push_str("нет"),
        Reply::Wall => out.push_str("wall"),
        Reply::Drawn(segment) => push_segment(out, segment),
    }
}

/// A number after a word, and a blank.
fn push_number(out: &mut String, number: u32) -> Result<(), AllocError>
    ensures { OnOk result (string_bytes out.new ≡ string_bytes out.old ++ (decimal number ++ codes " ")) }
{
    write!(out, "{number} ")
}

/// The run, the number, the command and the reply of a report, each after one blank.
fn push_report(
    alloc: Global,
    out: &mut String,
    run: u32,
    number: u32,
    command: Command,
    reply: Reply,
) -> Result<(), Memory>
    ensures { OnOk result (string_bytes out.new ≡ string_bytes out.old ++ (decimal run ++ (codes " " ++ (decimal number ++ (codes " " ++ (encode_utf8_all (printed_command command) ++ (codes " " ++ reply_text reply))))))) }
{
    let name = print_command(alloc, command)?;
    push_number(out, run)?;
    push_number(out, number)?;
    out.push_str(name.as_str())?;
    out.push_str(" ")?;
    push_reply(out, reply)?;
    Ok(())
}

fn push_margin(alloc: Global, out: &mut String, version: u32, margin: &Margin) -> Result<(), Memory>
    ensures { OnOk result (string_bytes out.new ≡ string_bytes out.old ++ (decimal version ++ printed_margin margin.now)) }
{
    let marks = print_margin(alloc, margin)?;
    let marks = marks.as_str();
    write!(out, "{version}{marks}")?;
    Ok(())
}

/// The entry without the end of its line.
pub fn push_line(alloc: Global, out: &mut String, entry: &Entry) -> Result<(), Memory>
    requires { IsPrintable entry.now }
    ensures { OnOk result (string_bytes out.new ≡ string_bytes out.old ++ entry_line entry.now) }
{
    match entry {
        Entry::Edit { version } => write!(out, "edit {}", *version)?,
        Entry::EditRange => out.push_str("edit refused range")?,
        Entry::EditLong => out.push_str("edit refused long")?,
        Entry::EditMany => out.push_str("edit refused many")?,
        Entry::FieldOk => out.push_str("field ok")?,
        Entry::FieldBad { line } => write!(out, "field bad {}", *line)?,
        Entry::Run { run, version } => write!(out, "run {} {}", *run, *version)?,
        Entry::RunBusy => out.push_str("run refused busy")?,
        Entry::Stop { run } => write!(out, "stop {}", *run)?,
        Entry::StopIdle => out.push_str("stop idle")?,
        Entry::Waited => out.push_str("waited")?,
        Entry::Bad { line } => write!(out, "bad {}", *line)?,
        Entry::Margin { version, margin } => {
            out.push_str("margin ")?;
            push_margin(alloc, out, *version, margin)?;
        }
        Entry::RefusedFaults { run } => write!(out, "refused {} faults", *run)?,
        Entry::RefusedMain { run } => write!(out, "refused {} main", *run)?,
        Entry::Out { run, text } => {
            write!(out, "out {} ", *run)?;
            push_escaped(out, text.as_slice())?;
        }
        Entry::Robot {
            run,
            number,
            command,
            reply,
        } => {
            out.push_str("robot ")?;
            push_report(alloc, out, *run, *number, Command::Robot(*command), *reply)?;
        }
        Entry::Pen {
            run,
            number,
            command,
            reply,
        } => {
            out.push_str("pen ")?;
            push_report(alloc, out, *run, *number, Command::Pen(*command), *reply)?;
        }
        Entry::End { run, end } => {
            write!(out, "end {} ", *run)?;
            push_end(out, *end)?;
        }
        Entry::Bye => out.push_str("bye")?,
    }
    Ok(())
}

/// The entry as the transcript shows it, a line with its end (docs/PROGRAM.md, "Transcript"). Its end is another than
/// want of memory, and its reply is one that its performer can have.
pub fn print_entry(alloc: Global, entry: &Entry) -> Result<String, Memory>
    requires { IsPrintable entry.now }
    ensures printed { IfOk result (λ text. string_bytes text ≡ printed_entry entry.now) }
    ensures shown { OnOk result (IsShown entry.now) }
{
    in_range(entry);
    let mut out = String::new(alloc);
    push_line(alloc, &mut out, entry)?;
    out.push_str("\n")?;
    Ok(out)
}
