//! The top call.

ghost use Rattle.std.specs.Prelude.{◌≡◌, ◌⊎◌, ℕ, map, true, None, Some};
ghost use Rattle.std.specs.String.{string_bytes};
ghost use Rattle.km_ports.specs.declared.status.Status.TheVariants as status;
ghost use Rattle.workbench.specs.Words.{command_of, has_other_option};
ghost use Rattle.plain_run.specs.Checked.{IsCheckRun};
ghost use Rattle.plain_run.specs.Printed.{AnswersTokens};
ghost use Rattle.plain_run.specs.Runs.{IsTextRun, IsUntouched, ports};
ghost use Rattle.plain_run.specs.Scripts.{IsScriptRun};
ghost use Rattle.sample_maker.specs.SampleRuns.{IsSampleRun};

use crate::words::{Command, command_of};
use km_base::Memory;
use km_ports::{Sink, Source, Status};
use plain_run::{check_text, run_plain, tokens_text};
use sample_maker::{one_summary, sample_text};
use std::alloc::Global;

/// Does all that the program does: carries out the command that `words` are, the arguments without the program's
/// name, over a source and a sink, and answers the status (docs/PROGRAM.md, "Statuses").
pub fn workbench<I: Source, O: Sink>(
    alloc: Global,
    words: &[String],
    input: &mut I,
    output: &mut O,
) -> Status
    // A word that begins with a hyphen and is not `--steps` is refused before anything else.
    ensures option { has_other_option (map (λ word. string_bytes word) words.now) ≡ true → result ≡ status.Words }
    // Words that are no command are refused unless memory is wanted, and nothing else is.
    ensures words { result ≡ status.Words → command_of (map (λ word. string_bytes word) words.now) ≡ None }
    ensures refused { command_of (map (λ word. string_bytes word) words.now) ≡ None →
        (result ≡ status.Words) ⊎ (result ≡ status.Memory) }
    ensures untouched { command_of (map (λ word. string_bytes word) words.now) ≡ None →
        IsUntouched (ports (I.state input.old) (I.state input.new)
        (O.state output.old) (O.state output.new)) }

    ensures tokens { command_of (map (λ word. string_bytes word) words.now) ≡ Some Command.Tokens →
        IsTextRun AnswersTokens (ports (I.state input.old) (I.state input.new)
        (O.state output.old) (O.state output.new)) result }

    ensures check { command_of (map (λ word. string_bytes word) words.now) ≡ Some Command.Check →
        IsCheckRun (ports (I.state input.old) (I.state input.new)
        (O.state output.old) (O.state output.new)) result }

    ensures plain { (budget : ℕ) → command_of (map (λ word. string_bytes word) words.now) ≡ Some (Command.Plain budget) →
        IsScriptRun budget (ports (I.state input.old) (I.state input.new)
        (O.state output.old) (O.state output.new)) result }

    ensures sample { (number : ℕ) → command_of (map (λ word. string_bytes word) words.now) ≡ Some (Command.Sample number) →
        IsSampleRun number (O.state output.old) (O.state output.new) result }
    // It reads nothing.
    ensures unread { (number : ℕ) → command_of (map (λ word. string_bytes word) words.now) ≡ Some (Command.Sample number) →
        I.state input.new ≡ I.state input.old }

    // Faults come from `check` alone.
    ensures unfaulted { result ≡ status.Faults → command_of (map (λ word. string_bytes word) words.now) ≡ Some Command.Check }
{
    match command_of(alloc, words) {
        Ok(Some(Command::Tokens)) => tokens_text(alloc, input, output),
        Ok(Some(Command::Check)) => check_text(alloc, input, output),
        Ok(Some(Command::Plain { budget })) => run_plain(alloc, input, output, budget),
        Ok(Some(Command::Sample { number })) => sample_text(alloc, number, output),
        Ok(None) => Status::Words,
        Err(Memory) => {
            one_summary();
            Status::Memory
        }
    }
}
