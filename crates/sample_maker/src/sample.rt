//! The script that is the sample of a number (docs/PROGRAM.md, "Sample").

ghost use Rattle.std.specs.Prelude.{◌≡◌, ◌≤◌, ◌<◌, ◌+◌, ◌%◌, ◌++◌, IfOk, OnOk};
ghost use Rattle.std.specs.List.{flat_map, range_with_len};
ghost use Rattle.std.specs.String.{string_bytes};
ghost use Rattle.sample_maker.specs.Sample.{stages, stage_numbers, call_line, main_text, value_line, stage_text, edit_line, first_edit, next_edit, sample};

use km_base::Memory;
use std::alloc::{AllocError, Global};
use std::fmt::Write;

// How many algorithms the main one calls, one after the other: the stages.
fn stages(number: u32) -> u32
    ensures value { result ≡ stages number }
    ensures few { result < 220 }
{
    20 + number % 200
}

// The line that calls a stage.
fn push_call(out: &mut String, stage: u32) -> Result<(), AllocError>
    ensures { OnOk result (string_bytes out.new ≡ string_bytes out.old ++ call_line stage) }
{
    writeln!(out, "s := f_{stage}(s)")
}

// The lines that call the stages from 1 on.
fn push_calls(out: &mut String, stages: u32) -> Result<(), AllocError>
    requires { stages < 220 }
    ensures { OnOk result (string_bytes out.new ≡ string_bytes out.old ++ flat_map call_line (range_with_len 1 stages)) }
{
    for before in 0..stages {
        push_call(out, before + 1)?;
    }
    Ok(())
}

// The main algorithm, which calls all stages.
fn push_main(out: &mut String, number: u32) -> Result<(), AllocError>
    ensures { OnOk result (string_bytes out.new ≡ string_bytes out.old ++ main_text number) }
{
    let begin = number % 1000;
    writeln!(out, "алг главная\nнач\nцел s\ns := {begin}")?;
    push_calls(out, stages(number))?;
    out.push_str("вывод s\nкон\n")
}

// The line that gives a stage its value, with this factor.
fn push_value(out: &mut String, factor: u32, stage: u32) -> Result<(), AllocError>
    ensures { OnOk result (string_bytes out.new ≡ string_bytes out.old ++ value_line factor stage) }
{
    writeln!(out, "знач := mod(x * {factor} + {stage}, 1000)")
}

// A stage.
fn push_stage(out: &mut String, stage: u32) -> Result<(), AllocError>
    ensures { OnOk result (string_bytes out.new ≡ string_bytes out.old ++ stage_text stage) }
{
    writeln!(out, "алг цел f_{stage}(арг цел x)\nнач")?;
    push_value(out, 1, stage)?;
    out.push_str("кон\n")
}

// The stages from 1 on.
fn push_stages(out: &mut String, stages: u32) -> Result<(), AllocError>
    requires { stages < 220 }
    ensures { OnOk result (string_bytes out.new ≡ string_bytes out.old ++ flat_map stage_text (range_with_len 1 stages)) }
{
    for before in 0..stages {
        push_stage(out, before + 1)?;
    }
    Ok(())
}

// The line that begins an edit.
fn push_edit(out: &mut String, from: u32, count: u32, added: u32) -> Result<(), AllocError>
    ensures { OnOk result (string_bytes out.new ≡ string_bytes out.old ++ edit_line from count added) }
{
    writeln!(out, "edit {from} {count} {added}")
}

// The edit that makes version 1.
fn push_first_edit(out: &mut String, number: u32) -> Result<(), AllocError>
    ensures { OnOk result (string_bytes out.new ≡ string_bytes out.old ++ first_edit number) }
{
    let stages = stages(number);
    push_edit(out, 1, 0, 5 * stages + 6)?;
    push_main(out, number)?;
    push_stages(out, stages)
}

// The factor that the edit of a stage puts into its value.
fn factor(number: u32, stage: u32) -> u32
    ensures { result ≡ 2 + (number + stage) % 7 }
{
    2 + ((u64::from(number) + u64::from(stage)) % 7) as u32
}

// The edit that puts another factor into the value of a stage.
fn push_next_edit(out: &mut String, number: u32, stage: u32) -> Result<(), AllocError>
    requires first { 1 ≤ stage }
    requires last { stage < 220 }
    ensures { OnOk result (string_bytes out.new ≡ string_bytes out.old ++ next_edit number stage) }
{
    push_edit(out, stages(number) + 6 + 4 * (stage - 1) + 3, 1, 1)?;
    push_value(out, factor(number, stage), stage)
}

// The edits of all stages.
fn push_next_edits(out: &mut String, number: u32) -> Result<(), AllocError>
    ensures { OnOk result (string_bytes out.new ≡ string_bytes out.old ++ flat_map (next_edit number) (stage_numbers number)) }
{
    for before in 0..stages(number) {
        push_next_edit(out, number, before + 1)?;
    }
    Ok(())
}

/// The sample of the number: a script of an edit that makes a program of many algorithms, of one more edit for each of
/// them but the first, and of a run (docs/PROGRAM.md, "Sample"). The only error is want of memory.
pub fn make(alloc: Global, number: u32) -> Result<String, Memory>
    ensures { IfOk result (λ text. string_bytes text ≡ sample number) }
{
    let mut out = String::new(alloc);
    push_first_edit(&mut out, number)?;
    push_next_edits(&mut out, number)?;
    out.push_str("run\n")?;
    Ok(out)
}
