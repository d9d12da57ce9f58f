//! Requests carried out one after the other.

ghost use Rattle.std.specs.Prelude.{ℕ, List, ◌≡◌, ◌<◌, ◌+◌, ◌∷◌, [], false, length, Result, Ok, Err, IfOk, OnOk, reverse};
ghost use Rattle.text_versions.specs.declared.versions.ApplyRefusal.TheVariants as refusal;
ghost use Rattle.text_versions.specs.Edits.{answer_to};
ghost use Rattle.text_versions.specs.Texts.{text_limits};
ghost use Rattle.script_lines.specs.declared.request.Ask.{Ask};
ghost use Rattle.robot_field.specs.FieldText.{IsFieldText, IsFirstBad};
ghost use Rattle.robot_field.specs.declared.field.FieldRefusal.TheVariants as FieldRefusal;
ghost use Rattle.transcript.specs.Print.{IsPrintable};
ghost use Rattle.plain_run.specs.Ending.{StopsPut};
ghost use Rattle.plain_run.specs.Kept.{Kept};
ghost use Rattle.plain_run.specs.Sessions.{kept_in, IsSession};
ghost use Rattle.plain_run.specs.Plain.{PutsEntries};
ghost use Rattle.plain_run.specs.Carried.{IsNewestMargin, Alone, SaysEdit, SaysRun, SaysField, Answers, Carries};

use crate::analysis::analysis_of;
use crate::put::put_entry;
use crate::run::put_run;
use crate::session::Session;
use km_base::Memory;
use km_ports::{Sink, Status};
use kumir_tree::Lines;
use kumir_values::Values;
use robot_field::{Field, FieldRefusal};
use script_lines::{Ask, Request, Requests};
use sqlite_items::Items;
use std::alloc::{AllocError, Global};
use text_versions::{ApplyRefusal, Edit};
use transcript::Entry;

// The margin of the newest version.
fn margin_entry(alloc: Global, session: &Session) -> Result<Entry, Memory>
    requires { IsSession session.now }
    ensures margin { IfOk result (λ entry. IsNewestMargin session.now.versions entry) }
    ensures printable { IfOk result (λ entry. IsPrintable entry) }
{
    Ok(Entry::Margin {
        version: session.versions.newest(),
        margin: session.analysed.margin().copy(alloc)?,
    })
}

/// Puts the margin of the newest version into the sink.
pub fn put_margin<O: Sink>(alloc: Global, session: &Session, output: &mut O) -> Result<(), Status>
    requires { IsSession session.now }
    ensures whole { OnOk result (PutsEntries
        (λ entries. (margin : Entry) × IsNewestMargin session.now.versions margin × (entries ≡ margin ∷ []))
        (O.state output.old) (O.state output.new)) }
    ensures cause { StopsPut (O.state output.old) (O.state output.new) result }
{
    let margin = margin_entry(alloc, session)?;
    put_entry(alloc, margin, output)
}

// Puts the answer to an edit that was refused.
fn put_refusal<O: Sink>(alloc: Global, refusal: ApplyRefusal, output: &mut O) -> Result<(), Status>
    ensures whole { OnOk result (PutsEntries
        (λ entries. (kept : Kept) → (e : Edit) → SaysEdit (Err refusal) kept e entries kept)
        (O.state output.old) (O.state output.new)) }
    ensures cause { StopsPut (O.state output.old) (O.state output.new) result }
{
    match refusal {
        ApplyRefusal::Range => put_entry(alloc, Entry::EditRange, output),
        ApplyRefusal::TooLong => put_entry(alloc, Entry::EditLong, output),
        ApplyRefusal::TooMany => put_entry(alloc, Entry::EditMany, output),
        ApplyRefusal::Memory => Err(Status::Memory),
    }
}

// Makes the next version by an edit, and puts the answer, and the margin of the version behind it.
fn put_edit<O: Sink>(
    alloc: Global,
    session: &mut Session,
    edit: Edit,
    output: &mut O,
) -> Result<(), Status>
    requires { IsSession session.old }
    ensures whole { OnOk result (PutsEntries
        (λ entries. SaysEdit (answer_to text_limits session.old.versions edit)
        (kept_in session.old) edit entries (kept_in session.new))
        (O.state output.old) (O.state output.new)) }
    ensures session { OnOk result (IsSession session.new) }
    ensures cause { StopsPut (O.state output.old) (O.state output.new) result }
{
    match session.versions.apply(edit) {
        Ok(version) => {
            put_entry(alloc, Entry::Edit { version }, output)?;
            session.analysed = analysis_of(alloc, version, session.versions.snapshot()?)?;
            put_margin(alloc, session, output)
        }
        Err(refusal) => put_refusal(alloc, refusal, output),
    }
}

// Takes a run of the newest version on, and carries it out.
fn put_next_run<O: Sink>(
    alloc: Global,
    session: &mut Session,
    inputs: Values,
    output: &mut O,
) -> Result<(), Status>
    requires session { IsSession session.old }
    requires few { session.old.runs.count < 4294967295 }
    ensures whole { OnOk result (PutsEntries
        (λ entries. SaysRun (kept_in session.old) inputs entries (kept_in session.new))
        (O.state output.old) (O.state output.new)) }
    ensures session { OnOk result (IsSession session.new) }
    ensures cause { StopsPut (O.state output.old) (O.state output.new) result }
{
    let version = session.versions.newest();
    let Ok(run) = session.runs.pin(version) else {
        unreachable!()
    };
    put_entry(alloc, Entry::Run { run, version }, output)?;
    put_run(
        alloc,
        &session.analysed,
        &mut session.runs,
        inputs,
        &session.field,
        session.budget,
        output,
    )
}

// The field that lines are. More lines than 32 bits count are answered as want of memory.
fn read_field(alloc: Global, lines: &Lines) -> Result<Field, FieldRefusal>
    ensures field { IfOk result (λ field. IsFieldText lines.now field) }
    ensures bad { (n : ℕ) → result ≡ Err (FieldRefusal.BadField n) → IsFirstBad lines.now n }
{
    if lines.len() >= u32::MAX as usize {
        return Err(FieldRefusal::Memory);
    }
    Field::read(alloc, lines.as_slice())
}

// Puts the answer to a field. Lines that are one are the field of the runs that follow.
fn put_field<O: Sink>(
    alloc: Global,
    session: &mut Session,
    lines: Lines,
    output: &mut O,
) -> Result<(), Status>
    requires session { IsSession session.old }
    ensures whole { OnOk result (PutsEntries
        (λ entries. SaysField (kept_in session.old) lines entries (kept_in session.new))
        (O.state output.old) (O.state output.new)) }
    ensures session { OnOk result (IsSession session.new) }
    ensures cause { StopsPut (O.state output.old) (O.state output.new) result }
{
    match read_field(alloc, &lines) {
        Ok(field) => {
            session.field = field;
            put_entry(alloc, Entry::FieldOk, output)
        }
        Err(FieldRefusal::BadField { line }) => put_entry(alloc, Entry::FieldBad { line }, output),
        Err(FieldRefusal::Memory) => Err(Status::Memory),
    }
}

/// Puts the answer to one request.
pub fn put_answer<O: Sink>(
    alloc: Global,
    session: &mut Session,
    request: Request,
    output: &mut O,
) -> Result<(), Status>
    requires session { IsSession session.old }
    requires few { session.old.runs.count < 4294967295 }
    ensures whole { OnOk result (PutsEntries
        (λ entries. Answers request.line request.ask (kept_in session.old) entries (kept_in session.new))
        (O.state output.old) (O.state output.new)) }
    ensures session { OnOk result (IsSession session.new) }
    ensures cause { StopsPut (O.state output.old) (O.state output.new) result }
{
    let Request { line, ask } = request;
    match ask {
        Ask::Edit(edit) => put_edit(alloc, session, edit, output),
        Ask::Field(lines) => put_field(alloc, session, lines, output),
        Ask::Run(inputs) => put_next_run(alloc, session, inputs, output),
        Ask::Stop => put_entry(alloc, Entry::StopIdle, output),
        Ask::Wait => put_entry(alloc, Entry::Waited, output),
        Ask::Bad => put_entry(alloc, Entry::Bad { line }, output),
    }
}

// The requests, the last one first.
fn turned(alloc: Global, mut requests: Requests) -> Result<Requests, AllocError>
    ensures { IfOk result (λ turned. requests ≡ reverse turned) }
{
    let mut turned = Items::new(alloc);
    while let Some(request) = requests.pop() {
        turned.push(request)?;
    }
    Ok(turned)
}

/// Puts the answers to requests, one after the other.
pub fn put_answers<O: Sink>(
    alloc: Global,
    session: &mut Session,
    requests: Requests,
    output: &mut O,
) -> Result<(), Status>
    requires session { IsSession session.old }
    requires few { session.old.runs.count + length requests < 4294967295 }
    ensures whole { OnOk result (PutsEntries
        (λ entries. Carries (kept_in session.old) requests entries (kept_in session.new))
        (O.state output.old) (O.state output.new)) }
    ensures session { OnOk result (IsSession session.new) }
    ensures cause { StopsPut (O.state output.old) (O.state output.new) result }
{
    let mut waiting = turned(alloc, requests)?;
    while let Some(request) = waiting.pop() {
        put_answer(alloc, session, request, output)?;
    }
    Ok(())
}
