//! The parts of an entry are values of their types.
ghost use Rattle.std.specs.Prelude.{◌≡◌, [], ◌∷◌, ◌<◌, ◌^◌, true};
ghost use Rattle.std.specs.Int.Signed.{mag};
ghost use Rattle.std.specs.Str.{all_scalars};
ghost use Rattle.transcript.specs.Print.{IsNumber, IsPenCommand, IsReply, IsEnd, IsEntry};

use crate::entry::Entry;
use kumir_values::EndKind;
use performer_kit::{PenCommand, Reply, Segment};

fn number(_n: u32)
    ensures { IsNumber _n }
{}

fn whole(_n: i32)
    ensures { mag _n < 2 ^ 31 }
{}

fn wide(_n: i64)
    ensures { mag _n < 2 ^ 63 }
{}

fn command_in_range(command: PenCommand)
    ensures { IsPenCommand command }
{
    match command {
        PenCommand::To { x, y } => {
            whole(x);
            whole(y);
        }
        PenCommand::By { dx, dy } => {
            whole(dx);
            whole(dy);
        }
        _ => {}
    }
}

fn reply_in_range(reply: Reply)
    ensures { IsReply reply }
{
    match reply {
        Reply::Drawn(Segment { x1, y1, x2, y2 }) => {
            wide(x1);
            wide(y1);
            wide(x2);
            wide(y2);
        }
        _ => {}
    }
}

fn end_in_range(end: EndKind)
    ensures { IsEnd end }
{
    match end {
        EndKind::Assert { line } => number(line),
        EndKind::Fault { line, .. } => number(line),
        EndKind::Wall { line } => number(line),
        _ => {}
    }
}

fn character(_c: char)
    ensures { all_scalars (_c ∷ []) ≡ true }
{}

fn text_in_range(text: &[char])
    ensures { all_scalars text.now ≡ true }
{
    for c in text {
        character(*c);
    }
}

/// The parts of an entry are values of their types.
pub fn in_range(entry: &Entry)
    ensures { IsEntry entry.now }
{
    match entry {
        Entry::Edit { version } => number(*version),
        Entry::FieldBad { line } => number(*line),
        Entry::Run { run, version } => {
            number(*run);
            number(*version);
        }
        Entry::Stop { run } => number(*run),
        Entry::Bad { line } => number(*line),
        Entry::Margin { version, margin } => {
            number(*version);
            margin.marks();
        }
        Entry::RefusedFaults { run } => number(*run),
        Entry::RefusedMain { run } => number(*run),
        Entry::Out { run, text } => {
            number(*run);
            text_in_range(text.as_slice());
        }
        Entry::Robot {
            run,
            number: count,
            reply,
            ..
        } => {
            number(*run);
            number(*count);
            reply_in_range(*reply);
        }
        Entry::Pen {
            run,
            number: count,
            command,
            reply,
        } => {
            number(*run);
            number(*count);
            command_in_range(*command);
            reply_in_range(*reply);
        }
        Entry::End { run, end } => {
            number(*run);
            end_in_range(*end);
        }
        _ => {}
    }
}
