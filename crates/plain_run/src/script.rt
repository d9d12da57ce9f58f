//! The command `plain`.

ghost use Rattle.std.specs.Prelude.{◌≡◌, ◌≤◌, ◌<◌, ◌+◌, ◌++◌, ◌∷◌, ℕ, List, [], length, Some, Option, IfOk, IfSome, OnOk};
ghost use Rattle.std.specs.Io.KnownBytes.{IsAtEnd};
ghost use Rattle.km_base.specs.Limits.{most_steps, script_bytes};
ghost use Rattle.km_ports.specs.Ports.{TakesFrom};
ghost use Rattle.km_ports.specs.Whole.{TakesUpTo};
ghost use Rattle.script_lines.specs.Requests.{whole, requests};
ghost use Rattle.script_lines.specs.declared.request.Request.{Request};
ghost use Rattle.plain_run.specs.Ending.{StopsPut};
ghost use Rattle.plain_run.specs.Runs.{ports};
ghost use Rattle.plain_run.specs.Plain.{IsPlain, PutsEntries};
ghost use Rattle.plain_run.specs.Carried.{Carries, StopsFor, HasCarried};
ghost use Rattle.plain_run.specs.Scripts.{IsScriptRun};
ghost use Rattle.plain_run.specs.Sessions.{kept_in, IsSession};

use crate::plain::{put_answer, put_answers, put_margin};
use crate::put::put_entry;
use crate::session::{Session, new_session};
use km_base::limits::SCRIPT_BYTES;
use km_ports::{Excess, Sink, Source, Status};
use script_lines::ScriptReader;
use std::alloc::Global;
use transcript::Entry;

/// How many bytes one take asks for at most.
const PIECE_BYTES: usize = 4096;

// Takes bytes into the buffer once, and carries out the requests that they complete, where `room` bytes may still come.
// It takes no more than these and one. Answers how many bytes came.
fn carry_piece<I: Source, O: Sink>(
    alloc: Global,
    reader: &mut ScriptReader,
    session: &mut Session,
    room: usize,
    buffer: &mut [u8],
    input: &mut I,
    output: &mut O,
) -> Result<usize, Status>
    requires fed { (fed : List ℕ) × (reader.now ≡ Some fed) × (length fed + room ≤ script_bytes)
        × (session.old.runs.count ≤ length (whole fed)) }
    requires session { IsSession session.old }
    requires buffer { 0 < length buffer.now }
    ensures carried { (fed : List ℕ) → reader.old ≡ Some fed → IfOk result (λ count. (piece : List ℕ)
        × (length piece ≡ count) × (reader.new ≡ Some (fed ++ piece))
        × HasCarried (ports (I.state input.old) (I.state input.new)
        (O.state output.old) (O.state output.new))
        fed piece (kept_in session.old) (kept_in session.new)) }
    ensures session { OnOk result (IsSession session.new) }
    ensures within { IfOk result (λ count. count ≤ room) }
    ensures end { IfOk result (λ count. count ≡ 0 → IsAtEnd (I.state input.old).left) }
    ensures taken { TakesUpTo (room + 1) (I.state input.old) (I.state input.new) }
    ensures cause { StopsFor room (ports (I.state input.old) (I.state input.new)
        (O.state output.old) (O.state output.new)) result }
{
    let asked = room.min(buffer.len() - 1) + 1;
    let count = input.take(&mut buffer[..asked])?;
    if count > room {
        return Err(Status::TooLong(Excess::Bytes));
    }
    let requests = reader.feed(&buffer[..count])?;
    put_answers(alloc, session, requests, output)?;
    Ok(count)
}

// Reads a script to its end and carries out the requests that its lines complete. Answers the reader, which knows what
// was read.
fn carry_pieces<I: Source, O: Sink>(
    alloc: Global,
    session: &mut Session,
    input: &mut I,
    output: &mut O,
) -> Result<ScriptReader, Status>
    requires session { IsSession session.old }
    requires none { session.old.runs.count ≡ 0 }
    ensures carried { IfOk result (λ reader. (fed : List ℕ) × (reader ≡ Some fed) × (length fed ≤ script_bytes)
        × HasCarried (ports (I.state input.old) (I.state input.new)
        (O.state output.old) (O.state output.new))
        [] fed (kept_in session.old) (kept_in session.new)) }
    ensures session { OnOk result (IsSession session.new) }
    ensures end { OnOk result (IsAtEnd (I.state input.new).left) }
    ensures taken { TakesUpTo (script_bytes + 1) (I.state input.old) (I.state input.new) }
    ensures cause { StopsFor script_bytes (ports (I.state input.old) (I.state input.new)
        (O.state output.old) (O.state output.new)) result }
{
    let mut reader = ScriptReader::new(alloc);
    let mut buffer = [0; PIECE_BYTES];
    let mut room = SCRIPT_BYTES;
    loop {
        let count = carry_piece(
            alloc,
            &mut reader,
            session,
            room,
            &mut buffer,
            input,
            output,
        )?;
        if count == 0 {
            return Ok(reader);
        }
        room -= count;
    }
}

// Carries out the request that the end of the script completes, if there is one.
fn carry_last<O: Sink>(
    alloc: Global,
    session: &mut Session,
    reader: ScriptReader,
    output: &mut O,
) -> Result<(), Status>
    requires read { IfSome reader (λ fed. length fed < 4294967295) }
    requires session { IsSession session.old }
    requires few { session.old.runs.count < 4294967295 }
    ensures whole { (fed : List ℕ) → reader ≡ Some fed → OnOk result (PutsEntries
        (λ entries. (last : List Request) × (requests fed ≡ whole fed ++ last)
        × Carries (kept_in session.old) last entries (kept_in session.new))
        (O.state output.old) (O.state output.new)) }
    ensures cause { StopsPut (O.state output.old) (O.state output.new) result }
{
    let last = reader.finish()?;
    match last {
        Some(request) => put_answer(alloc, session, request, output),
        None => Ok(()),
    }
}

// Carries out a script and puts its transcript.
fn carry_script<I: Source, O: Sink>(
    alloc: Global,
    input: &mut I,
    output: &mut O,
    budget: u32,
) -> Result<(), Status>
    requires { budget ≤ most_steps }
    ensures carried { OnOk result ((fed : List ℕ) × (length fed ≤ script_bytes)
        × TakesFrom (I.state input.old) (I.state input.new) fed
        × PutsEntries (IsPlain budget (requests fed)) (O.state output.old) (O.state output.new)) }
    ensures end { OnOk result (IsAtEnd (I.state input.new).left) }
    ensures taken { TakesUpTo (script_bytes + 1) (I.state input.old) (I.state input.new) }
    ensures cause { StopsFor script_bytes (ports (I.state input.old) (I.state input.new)
        (O.state output.old) (O.state output.new)) result }
{
    let mut session = new_session(alloc, budget)?;
    put_margin(alloc, &session, output)?;
    let reader = carry_pieces(alloc, &mut session, input, output)?;
    carry_last(alloc, &mut session, reader, output)?;
    put_entry(alloc, Entry::Bye, output)
}

/// Reads a script and carries out its requests one after the other (docs/PROGRAM.md, "plain"). A run may take so many
/// steps. The transcript is written as it grows.
pub fn run_plain<I: Source, O: Sink>(
    alloc: Global,
    input: &mut I,
    output: &mut O,
    budget: u32,
) -> Status
    requires { budget ≤ most_steps }
    ensures run { IsScriptRun budget (ports (I.state input.old) (I.state input.new)
        (O.state output.old) (O.state output.new)) result }
{
    match carry_script(alloc, input, output, budget) {
        Ok(()) => Status::Fine,
        Err(status) => status,
    }
}
