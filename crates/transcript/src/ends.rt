//! Ends of runs, read from the words of their lines.
ghost use Rattle.std.specs.Prelude.{◌≡◌, map, IfOk};
ghost use Rattle.transcript.specs.Reading.{fault_named, plain_end, end_of, end_entry};

use crate::entry::Entry;
use decimals::read_number;
use km_base::Memory;
use kumir_values::{EndKind, RunFault};
use std::alloc::Global;

fn fault_named(word: &str) -> Option<RunFault>
    ensures { result ≡ fault_named word.now }
{
    match word {
        "unset" => Some(RunFault::Unset),
        "range" => Some(RunFault::Range),
        "divisor" => Some(RunFault::Divisor),
        "exponent" => Some(RunFault::Exponent),
        "step" => Some(RunFault::StepZero),
        "index" => Some(RunFault::Index),
        "bounds" => Some(RunFault::Bounds),
        "elements" => Some(RunFault::Elements),
        "depth" => Some(RunFault::Depth),
        "no-input" => Some(RunFault::NoInput),
        "input-type" => Some(RunFault::InputType),
        "no-value" => Some(RunFault::NoValue),
        _ => None,
    }
}

fn plain_end(word: &str) -> Option<EndKind>
    ensures { result ≡ plain_end word.now }
{
    match word {
        "done" => Some(EndKind::Done),
        "quit" => Some(EndKind::Quit),
        "steps" => Some(EndKind::Steps),
        "stopped" => Some(EndKind::Stopped),
        _ => None,
    }
}

/// The end that the words are.
fn end_of(alloc: Global, words: &[&str]) -> Result<Option<EndKind>, Memory>
    ensures { IfOk result (λ kind. kind ≡ end_of (map (λ w. w.now) words.now)) }
{
    match words {
        [word] => Ok(plain_end(word)),
        [word, line] => match read_number(alloc, line)? {
            Some(line) if *word == "assert" => Ok(Some(EndKind::Assert { line })),
            Some(line) if *word == "wall" => Ok(Some(EndKind::Wall { line })),
            _ => Ok(None),
        },
        [word, line, fault] if *word == "fault" => {
            match (read_number(alloc, line)?, fault_named(fault)) {
                (Some(line), Some(fault)) => Ok(Some(EndKind::Fault { line, fault })),
                _ => Ok(None),
            }
        }
        _ => Ok(None),
    }
}

/// What follows `end`.
pub fn read_end(alloc: Global, words: &[&str]) -> Result<Option<Entry>, Memory>
    ensures { IfOk result (λ e. e ≡ end_entry (map (λ w. w.now) words.now)) }
{
    let Some((run, kind)) = words.split_first() else {
        return Ok(None);
    };
    match (read_number(alloc, run)?, end_of(alloc, kind)?) {
        (Some(run), Some(end)) => Ok(Some(Entry::End { run, end })),
        _ => Ok(None),
    }
}
