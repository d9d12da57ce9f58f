//! The command `tokens`.

ghost use Rattle.std.specs.Prelude.{◌≡◌, ◌≢◌, ◌≤◌, ◌<◌, ◌+◌, ℕ, List, [], ◌∷◌, Option, length, map, All, IfOk, IfErr, OnOk, Some};
ghost use Rattle.std.specs.Str.{chars};
ghost use Rattle.kumir_tree.specs.Lines.{lines_of};
ghost use Rattle.km_ports.specs.declared.status.Status.TheVariants as status;
ghost use Rattle.km_ports.specs.Ports.{CountsPut};
ghost use Rattle.plain_run.specs.Printed.{AnswersTokens};
ghost use Rattle.plain_run.specs.Puts.{PutsLines, PutsPrefixOf};
ghost use Rattle.plain_run.specs.Runs.{IsTextRun, ports};

use crate::ending::ended;
use crate::text::text_lines;
use km_base::limits::TEXT_BYTES;
use km_ports::{PutFault, Sink, Source, Status, put_all, read_within};
use kumir_lexer::{lex_line, print_tokens};
use std::alloc::Global;

// Prints one line of a text into the sink.
fn put_line<O: Sink>(alloc: Global, number: u32, line: &str, output: &mut O) -> Result<(), PutFault>
    requires { length line.now < 4294967295 }
    ensures whole { OnOk result (PutsLines number (chars line.now ∷ []) (O.state output.old) (O.state output.new)) }
    ensures prefix { IfErr result (λ fault. PutsPrefixOf fault number (chars line.now ∷ [])
        (O.state output.old) (O.state output.new)) }
    ensures later { (O.state output.old).faults ≤ (O.state output.new).faults }
    ensures cause { CountsPut (O.state output.old) (O.state output.new) result }
{
    let found = lex_line(alloc, line)?;
    let printed = print_tokens(alloc, number, &found)?;
    put_all(output, printed.as_bytes())
}

// Prints the lines of a text into the sink, the first of them as line 1.
fn put_lines<O: Sink>(alloc: Global, lines: &[&str], output: &mut O) -> Result<(), PutFault>
    requires fewer { length lines.now < 4294967295 }
    requires short { All (λ line. length line.now < 4294967295) lines.now }
    ensures whole { OnOk result (PutsLines 1 (map (λ line. chars line.now) lines.now)
        (O.state output.old) (O.state output.new)) }
    ensures prefix { IfErr result (λ fault. PutsPrefixOf fault 1 (map (λ line. chars line.now) lines.now)
        (O.state output.old) (O.state output.new)) }
    ensures later { (O.state output.old).faults ≤ (O.state output.new).faults }
    ensures cause { CountsPut (O.state output.old) (O.state output.new) result }
{
    for (i, line) in lines.iter().enumerate() {
        put_line(alloc, i as u32 + 1, line, output)?;
    }
    Ok(())
}

/// Reads a text and prints its tokens (docs/PROGRAM.md, "tokens"): a line for each token and for the first fault of
/// each line.
pub fn tokens_text<I: Source, O: Sink>(alloc: Global, input: &mut I, output: &mut O) -> Status
    ensures run { IsTextRun AnswersTokens (ports (I.state input.old) (I.state input.new)
        (O.state output.old) (O.state output.new)) result }
    ensures unfaulted { result ≢ status.Faults }
{
    let bytes = match read_within(alloc, input, TEXT_BYTES) {
        Ok(bytes) => bytes,
        Err(refusal) => return Status::from(refusal),
    };
    match text_lines(alloc, &bytes) {
        Ok(lines) => ended(Status::Fine, put_lines(alloc, lines.as_slice(), output)),
        Err(status) => status,
    }
}
