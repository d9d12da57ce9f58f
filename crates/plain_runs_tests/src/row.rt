//! What is tried on a program, and what is wanted.

use km_ports::{SureSource, VecSink};
use std::alloc::{AllocError, Global};
use std::process::Abort;
use std::test::Fail;
use workbench::workbench;

/// What the command writes for a script.
pub fn transcript(alloc: Global, line: &str, script: &str) -> Result<String, AllocError> {
    let mut words = Vec::new(alloc);
    for word in line.split(' ') {
        words.push(String::from_str(alloc, word)?)?;
    }
    let mut source = SureSource::new(Vec::from_slice(alloc, script.as_bytes())?);
    let mut sink = VecSink::new(alloc);
    let status = workbench(alloc, words.as_slice(), &mut source, &mut sink);
    let text = String::from_utf8_lossy(alloc, sink.written())?;
    format!(in alloc; "{text}{}", status.number())
}

/// The transcript of a program as version 1 and of the requests behind its edit, and the status.
pub fn told(
    alloc: Global,
    line: &str,
    program: &str,
    requests: &str,
) -> Result<String, AllocError> {
    let count = program.lines().count();
    let script = format!(in alloc; "edit 1 0 {count}\n{program}\n{requests}")?;
    transcript(alloc, line, script.as_str())
}

/// The transcript that has these entries behind the margin of version 1, and the status 0.
pub fn wanted(alloc: Global, entries: &str) -> Result<String, AllocError> {
    format!(in alloc; "margin 0\nedit 1\nmargin 1\n{entries}bye\n0")
}

/// One run of each program without inputs has these entries.
pub fn run_as(rt: &impl Abort, alloc: Global, cases: &[(&str, &str)]) -> Result<(), Fail> {
    for (program, entries) in cases {
        let told = told(alloc, "plain", program, "run")?;
        let due = wanted(alloc, entries)?;
        assert_eq!(rt; told.as_str(), due.as_str(), "at {program}");
    }
    Ok(())
}

/// The requests behind the edit of each program are answered by these entries.
pub fn are_answered(
    rt: &impl Abort,
    alloc: Global,
    cases: &[(&str, &str, &str)],
) -> Result<(), Fail> {
    for (program, requests, entries) in cases {
        let told = told(alloc, "plain", program, requests)?;
        let due = wanted(alloc, entries)?;
        assert_eq!(rt; told.as_str(), due.as_str(), "at {program}");
    }
    Ok(())
}

/// One run of each program by these words, without inputs, has these entries.
pub fn run_within(
    rt: &impl Abort,
    alloc: Global,
    cases: &[(&str, &str, &str)],
) -> Result<(), Fail> {
    for (line, program, entries) in cases {
        let told = told(alloc, line, program, "run")?;
        let due = wanted(alloc, entries)?;
        assert_eq!(rt; told.as_str(), due.as_str(), "at {line}");
    }
    Ok(())
}
