//! The newest text that a script makes, and its algorithms.

ghost use Rattle.std.specs.Prelude.{◌≡◌, ◌≤◌, ◌<◌, length, fold, IfOk, OnOk};
ghost use Rattle.std.specs.Arc.{arc_value};
ghost use Rattle.km_base.specs.Limits.{script_bytes};
ghost use Rattle.text_versions.specs.Edits.{text_after};
ghost use Rattle.script_lines.specs.Requests.{requests};
ghost use Rattle.script_lines.specs.Answer.{accepted, with_ask};
ghost use Rattle.sample_maker.specs.Summaries.{HasAlgorithms};

use algo_parser::split_units;
use km_base::Memory;
use script_lines::{Ask, Requests, ScriptReader};
use std::alloc::Global;
use std::sync::Arc;
use text_versions::{ApplyRefusal, Edit, Text, Versions};

// The requests of a script.
fn requests_of(alloc: Global, script: &[u8]) -> Result<Requests, Memory>
    requires { length script.now ≤ script_bytes }
    ensures { IfOk result (λ found. found ≡ requests script.now) }
{
    let mut reader = ScriptReader::new(alloc);
    let mut requests = reader.feed(script)?;
    if let Some(last) = reader.finish()? {
        requests.push(last)?;
    }
    Ok(requests)
}

// Makes the next version by an edit, unless it is refused.
fn accept_edit(versions: &mut Versions, edit: Edit) -> Result<(), Memory>
    ensures { OnOk result (versions.new ≡ with_ask versions.old (Ask.Edit edit)) }
{
    match versions.apply(edit) {
        Ok(_) => Ok(()),
        Err(ApplyRefusal::Memory) => Err(Memory),
        Err(ApplyRefusal::Range | ApplyRefusal::TooLong | ApplyRefusal::TooMany) => Ok(()),
    }
}

// Makes the next version, where an edit is asked for that is not refused.
fn accept(versions: &mut Versions, ask: Ask) -> Result<(), Memory>
    ensures { OnOk result (versions.new ≡ with_ask versions.old ask) }
{
    match ask {
        Ask::Edit(edit) => accept_edit(versions, edit),
        Ask::Field(_) | Ask::Run(_) | Ask::Stop | Ask::Wait | Ask::Bad => Ok(()),
    }
}

// Makes the versions that requests ask for, one after the other.
fn accept_all(versions: &mut Versions, mut requests: Requests) -> Result<(), Memory>
    ensures { OnOk result (versions.new ≡ fold (λ edits request. with_ask edits request.ask) versions.old requests) }
{
    while !requests.is_empty() {
        let request = requests.remove(0);
        accept(versions, request.ask)?;
    }
    Ok(())
}

// The text of the newest version that a script makes.
fn newest_text(alloc: Global, script: &[u8]) -> Result<Arc<Text>, Memory>
    requires { length script.now ≤ script_bytes }
    ensures { IfOk result (λ text. arc_value text ≡ text_after (accepted (requests script.now))) }
{
    let requests = requests_of(alloc, script)?;
    let mut versions = Versions::new(alloc)?;
    accept_all(&mut versions, requests)?;
    versions.snapshot()
}

/// How many algorithms the text of the newest version has that a script makes. The only error is want of memory.
pub fn count_algorithms(alloc: Global, script: &[u8]) -> Result<u32, Memory>
    requires { length script.now ≤ script_bytes }
    ensures { IfOk result (HasAlgorithms script.now) }
{
    let text = newest_text(alloc, script)?;
    let lines = text.piece(alloc, 1, text.count())?;
    let spans = split_units(alloc, lines.as_slice())?;
    Ok(spans.len() as u32 - 1)
}
