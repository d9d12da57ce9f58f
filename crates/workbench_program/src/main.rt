//! The program: standard input and output, handed to the top call.
#![tactic(auto)]

use km_ports::{Status, StdSink, StdSource};
use std::alloc::AllocError;
use std::env;
use std::io::ErrorKind;
use std::process::ExitCode;
use workbench::{Complaint, workbench};

// The arguments without the program's name. Where one of them is not UTF-8 they are the word `-`, which no command has.
fn words_of(rt: &HostRuntime) -> Result<Vec<String>, AllocError> {
    let mut words = Vec::new(rt.alloc());
    match env::args(rt) {
        Ok(arguments) => {
            for word in arguments.skip(1) {
                words.push(word)?;
            }
        }
        Err(error) if error.kind() == ErrorKind::OutOfMemory => return Err(AllocError),
        Err(_) => words.push(String::from_str(rt.alloc(), "-")?)?,
    }
    Ok(words)
}

// Carries out the command of the arguments. Without memory for these there is none.
fn run(rt: &HostRuntime) -> Result<Status, AllocError> {
    let words = words_of(rt)?;
    let mut input = StdSource::new(rt.stdin());
    let mut output = StdSink::new(rt.stdout());
    Ok(workbench(rt.alloc(), words.as_slice(), &mut input, &mut output))
}

fn main(rt: HostRuntime) -> ExitCode {
    let status = run(&rt).unwrap_or_else(Status::from);
    if let Some(complaint) = Complaint::of(&status) {
        let _ = rt.eprintln(complaint);
    }
    ExitCode::from(status.number())
}
