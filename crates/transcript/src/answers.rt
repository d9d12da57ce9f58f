//! Entries that answer requests, read from the words of their lines.
ghost use Rattle.std.specs.Prelude.{◌≡◌, map, IfOk};
ghost use Rattle.transcript.specs.Reading.{edit_refusal, edit_entry, field_entry, run_entry, stop_entry, bad_entry, refused_entry};

use crate::entry::Entry;
use decimals::read_number;
use km_base::Memory;
use std::alloc::Global;

fn edit_refusal(why: &str) -> Option<Entry>
    ensures { result ≡ edit_refusal why.now }
{
    if why == "range" {
        Some(Entry::EditRange)
    } else if why == "long" {
        Some(Entry::EditLong)
    } else if why == "many" {
        Some(Entry::EditMany)
    } else {
        None
    }
}

/// What follows `edit`.
pub fn read_edit(alloc: Global, words: &[&str]) -> Result<Option<Entry>, Memory>
    ensures { IfOk result (λ e. e ≡ edit_entry (map (λ w. w.now) words.now)) }
{
    match words {
        [version] => match read_number(alloc, version)? {
            Some(version) => Ok(Some(Entry::Edit { version })),
            None => Ok(None),
        },
        [word, why] if *word == "refused" => Ok(edit_refusal(why)),
        _ => Ok(None),
    }
}

/// What follows `field`.
pub fn read_field(alloc: Global, words: &[&str]) -> Result<Option<Entry>, Memory>
    ensures { IfOk result (λ e. e ≡ field_entry (map (λ w. w.now) words.now)) }
{
    match words {
        [word] if *word == "ok" => Ok(Some(Entry::FieldOk)),
        [word, line] if *word == "bad" => match read_number(alloc, line)? {
            Some(line) => Ok(Some(Entry::FieldBad { line })),
            None => Ok(None),
        },
        _ => Ok(None),
    }
}

/// What follows `run`.
pub fn read_run(alloc: Global, words: &[&str]) -> Result<Option<Entry>, Memory>
    ensures { IfOk result (λ e. e ≡ run_entry (map (λ w. w.now) words.now)) }
{
    let [run, version] = words else {
        return Ok(None);
    };
    if *run == "refused" {
        return Ok(if *version == "busy" {
            Some(Entry::RunBusy)
        } else {
            None
        });
    }
    match (read_number(alloc, run)?, read_number(alloc, version)?) {
        (Some(run), Some(version)) => Ok(Some(Entry::Run { run, version })),
        _ => Ok(None),
    }
}

/// What follows `stop`.
pub fn read_stop(alloc: Global, words: &[&str]) -> Result<Option<Entry>, Memory>
    ensures { IfOk result (λ e. e ≡ stop_entry (map (λ w. w.now) words.now)) }
{
    let [run] = words else {
        return Ok(None);
    };
    if *run == "idle" {
        return Ok(Some(Entry::StopIdle));
    }
    match read_number(alloc, run)? {
        Some(run) => Ok(Some(Entry::Stop { run })),
        None => Ok(None),
    }
}

/// What follows `bad`.
pub fn read_bad(alloc: Global, words: &[&str]) -> Result<Option<Entry>, Memory>
    ensures { IfOk result (λ e. e ≡ bad_entry (map (λ w. w.now) words.now)) }
{
    let [line] = words else {
        return Ok(None);
    };
    match read_number(alloc, line)? {
        Some(line) => Ok(Some(Entry::Bad { line })),
        None => Ok(None),
    }
}

/// What follows `refused`.
pub fn read_refused(alloc: Global, words: &[&str]) -> Result<Option<Entry>, Memory>
    ensures { IfOk result (λ e. e ≡ refused_entry (map (λ w. w.now) words.now)) }
{
    let [run, why] = words else {
        return Ok(None);
    };
    match read_number(alloc, run)? {
        Some(run) if *why == "faults" => Ok(Some(Entry::RefusedFaults { run })),
        Some(run) if *why == "main" => Ok(Some(Entry::RefusedMain { run })),
        _ => Ok(None),
    }
}
