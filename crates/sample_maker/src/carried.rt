//! A script carried out, and its transcript read.

ghost use Rattle.std.specs.Prelude.{◌≡◌, ◌≤◌, ◌<◌, List, length, All, IfOk};
ghost use Rattle.km_base.specs.Limits.{script_bytes};
ghost use Rattle.transcript.specs.declared.entry.Entry.{Entry};
ghost use Rattle.transcript.specs.Print.{print};
ghost use Rattle.transcript.specs.Entries.{IsShown};
ghost use Rattle.sample_maker.specs.Summaries.{IsPlainOf};

use km_base::Memory;
use km_base::limits::USUAL_STEPS;
use km_ports::{Status, SureSource, VecSink};
use plain_run::run_plain;
use std::alloc::Global;
use transcript::{Entries, TranscriptRefusal, read_entries};

// The transcript of a script within its limit, as it is printed.
fn transcript_of(alloc: Global, script: Vec<u8>) -> Result<VecSink, Memory>
    requires { length script.items ≤ script_bytes }
    ensures { IfOk result (λ written. (entries : List Entry) × IsPlainOf script.items entries
        × All IsShown entries × (written ≡ print entries)) }
{
    let mut input = SureSource::new(script);
    let mut output = VecSink::new(alloc);
    match run_plain(alloc, &mut input, &mut output, USUAL_STEPS) {
        Status::Fine => Ok(output),
        Status::Memory => Err(Memory),
        _ => unreachable!(),
    }
}

// The entries whose print these bytes are. More bytes than a transcript that is read may have are too many to be kept.
fn entries_of(alloc: Global, written: &[u8]) -> Result<Entries, Memory>
    requires { (entries : List Entry) × All IsShown entries × (written.now ≡ print entries) }
    ensures same { (entries : List Entry) → All IsShown entries → written.now ≡ print entries →
        IfOk result (λ read. read ≡ entries) }
    ensures few { IfOk result (λ read. length (print read) < 4294967295) }
{
    if written.len() >= u32::MAX as usize {
        return Err(Memory);
    }
    match read_entries(alloc, written) {
        Ok(entries) => Ok(entries),
        Err(TranscriptRefusal::Memory) => Err(Memory),
        Err(TranscriptRefusal::NotEntry { .. }) => unreachable!(),
    }
}

/// The plain transcript of a script within its limit, whose runs take the usual number of steps. The only error is want
/// of memory; so is a transcript of 4,294,967,295 bytes and more.
pub fn carry_out(alloc: Global, script: Vec<u8>) -> Result<Entries, Memory>
    requires { length script.items ≤ script_bytes }
    ensures plain { IfOk result (IsPlainOf script.items) }
    ensures few { IfOk result (λ entries. length (print entries) < 4294967295) }
{
    let written = transcript_of(alloc, script)?;
    entries_of(alloc, written.written())
}
