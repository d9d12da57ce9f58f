//! Runs carried out.

ghost use Rattle.std.specs.Prelude.{List, [], ◌≡◌, ◌≤◌, true, false, IfOk, OnOk};
ghost use Rattle.km_base.specs.Limits.{most_steps};
ghost use Rattle.run_control.specs.declared.Stage.TheVariants.{NoRun};
ghost use Rattle.run_control.specs.Runs.{IsPinned};
ghost use Rattle.type_check.specs.Margin.{program_faults};
ghost use Rattle.type_check.specs.Placed.{units_in};
ghost use Rattle.transcript.specs.declared.entry.Entry.{Entry};
ghost use Rattle.kumir_tree.specs.Sound.{IsSound};
ghost use Rattle.incr_analysis.specs.Full.{has_main};
ghost use Rattle.kumir_meaning.specs.Program as meaning;
ghost use Rattle.plain_run.specs.Courses.{IsAtBegin};
ghost use Rattle.plain_run.specs.Ending.{StopsPut};
ghost use Rattle.plain_run.specs.Runnable.{IsRunnable};
ghost use Rattle.plain_run.specs.RunEntries.{IsTraceOf, IsRunOfUnits, IsRunOf};
ghost use Rattle.plain_run.specs.Plain.{PutsEntries};

use crate::performing::Performing;
use crate::put::put_entry;
use incr_analysis::Analysed;
use km_base::Memory;
use km_ports::{Sink, Status};
use kumir_compiler::compile;
use kumir_machine::{Advanced, Machine};
use kumir_values::Values;
use robot_field::Field;
use run_control::{BeginRefusal, Runs};
use std::alloc::Global;
use std::sync::Arc;
use transcript::Entry;
use type_check::{Clean, CleanRefusal};

/// How many steps a machine takes at most before it answers.
const STEPS_AT_ONCE: u32 = 1_000_000;

// A machine at the begin of the run of a program.
fn machine_of(
    alloc: Global,
    program: &Clean,
    inputs: Values,
    budget: u32,
) -> Result<Machine, Memory>
    requires runnable { IsRunnable (units_in program.now) }
    requires allowed { budget ≤ most_steps }
    ensures { IfOk result (λ machine. IsAtBegin (meaning.program_of (units_in program.now)) inputs budget machine) }
{
    let code = compile(alloc, program)?;
    Machine::new(alloc, Arc::new(alloc, code)?, inputs, budget)
}

// Runs a program with performers on a copy of this field, puts each output and each report when it comes, and then the end.
fn put_trace<O: Sink>(
    alloc: Global,
    program: &Clean,
    inputs: Values,
    field: &Field,
    budget: u32,
    run: u32,
    output: &mut O,
) -> Result<(), Status>
    requires runnable { IsRunnable (units_in program.now) }
    requires allowed { budget ≤ most_steps }
    ensures whole { OnOk result (PutsEntries
        (IsTraceOf budget run inputs field.now (meaning.program_of (units_in program.now)))
        (O.state output.old) (O.state output.new)) }
    ensures cause { StopsPut (O.state output.old) (O.state output.new) result }
{
    let mut machine = machine_of(alloc, program, inputs, budget)?;
    let mut performing = Performing::new(field.copy(alloc)?);
    loop {
        match machine.advance(alloc, STEPS_AT_ONCE) {
            Advanced::Out(text) => put_entry(alloc, Entry::Out { run, text }, output)?,
            Advanced::Command(command) => {
                let (reply, report) = performing.carry_out(run, command);
                machine.give(reply);
                put_entry(alloc, report, output)?;
            }
            Advanced::Paused => {}
            Advanced::Ended(end) => return put_entry(alloc, Entry::End { run, end }, output),
            Advanced::Memory => return Err(Status::Memory),
            Advanced::AwaitReply => unreachable!(),
        }
    }
}

// The program of a version without a fault.
fn program_of(alloc: Global, analysed: &Analysed) -> Result<Clean, Memory>
    requires { analysed.now.margin ≡ [] }
    ensures same { IfOk result (λ program. units_in program ≡ units_in analysed.now.units) }
    ensures sound { IfOk result (λ program. IsSound (units_in program)) }
{
    match analysed.clean(alloc) {
        Ok(program) => Ok(program),
        Err(CleanRefusal::Faults(_)) => unreachable!(),
        Err(CleanRefusal::Memory) => Err(Memory),
    }
}

// Puts what the run of a version does on this field, and how it ends.
fn put_active<O: Sink>(
    alloc: Global,
    analysed: &Analysed,
    inputs: Values,
    field: &Field,
    budget: u32,
    run: u32,
    output: &mut O,
) -> Result<(), Status>
    requires unmarked { analysed.now.margin ≡ [] }
    requires faultless { program_faults (units_in analysed.now.units) ≡ [] }
    requires main { has_main (units_in analysed.now.units) ≡ true }
    requires allowed { budget ≤ most_steps }
    ensures whole { OnOk result (PutsEntries
        (IsRunOfUnits budget run inputs field.now (units_in analysed.now.units))
        (O.state output.old) (O.state output.new)) }
    ensures cause { StopsPut (O.state output.old) (O.state output.new) result }
{
    let program = program_of(alloc, analysed)?;
    put_trace(alloc, &program, inputs, field, budget, run, output)
}

/// Puts the entries of the pinned run of a version on this field: its refusal, or its outputs, its reports and its end.
/// The run is over then, and the field is as it was.
pub fn put_run<O: Sink>(
    alloc: Global,
    analysed: &Analysed,
    runs: &mut Runs,
    inputs: Values,
    field: &Field,
    budget: u32,
    output: &mut O,
) -> Result<(), Status>
    requires pinned { IsPinned runs.old.stage }
    requires allowed { budget ≤ most_steps }
    ensures whole { OnOk result (PutsEntries
        (IsRunOf budget runs.old.count inputs field.now analysed.now.text)
        (O.state output.old) (O.state output.new)) }
    ensures over { OnOk result (runs.new ≡ record { count = runs.old.count; stage = NoRun }) }
    ensures cause { StopsPut (O.state output.old) (O.state output.new) result }
{
    let run = runs.count();
    let fault_free = analysed.margin().marks().is_empty();
    let has_main = fault_free && analysed.has_main();
    match runs.begin(fault_free, has_main) {
        Ok(_) => {
            put_active(alloc, analysed, inputs, field, budget, run, output)?;
            runs.end();
            Ok(())
        }
        Err(BeginRefusal::Faults) => put_entry(alloc, Entry::RefusedFaults { run }, output),
        Err(BeginRefusal::NoMain) => put_entry(alloc, Entry::RefusedMain { run }, output),
    }
}
