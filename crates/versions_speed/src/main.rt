//! The time of edits of one line: a text of as many lines as the first argument tells, and as many edits as the second.
#![tactic(auto)]

use km_base::{Memory, Steps, Uncounted};
use kumir_tree::{Line, Lines};
use std::alloc::{AllocError, Global};
use std::env;
use text_versions::{ApplyRefusal, Edit, Versions, limits_of};

fn lines_of(alloc: Global, count: u32) -> Result<Lines, AllocError> {
    let mut lines = Lines::new(alloc);
    for _ in 0..count {
        let Ok(line) = Line::of_text(alloc, "цел x := 12345") else {
            return Err(AllocError);
        };
        lines.push(line)?;
    }
    Ok(lines)
}

/// The edit that puts so many lines in the place of `count` lines.
fn edit_of(alloc: Global, from: u32, count: u32, added: u32) -> Result<Edit, AllocError> {
    Ok(Edit {
        from,
        count,
        lines: lines_of(alloc, added)?,
    })
}

fn apply(versions: &mut Versions, edit: Edit) -> Result<u32, Memory> {
    match versions.apply_within(edit, limits_of(true), &mut Steps::<Uncounted>::new()) {
        Ok(number) => Ok(number),
        Err(ApplyRefusal::Memory) => Err(Memory),
        Err(_) => Ok(0),
    }
}

/// The number that the argument at the place tells, or else that one.
fn number_at(rt: &HostRuntime, at: usize, usual: u32) -> u32 {
    match env::args(rt) {
        Ok(arguments) => match arguments.skip(at).next() {
            Some(word) => word.parse().unwrap_or(usual),
            None => usual,
        },
        Err(_) => usual,
    }
}

fn main(rt: HostRuntime) -> Result<(), Memory> {
    let alloc = rt.alloc();
    let count = number_at(&rt, 1, 100);
    let edits = number_at(&rt, 2, 100);
    let mut versions = Versions::new(alloc)?;
    let mut newest = apply(&mut versions, edit_of(alloc, 1, 0, count)?)?;
    for turn in 0..edits {
        let from = 1 + turn.wrapping_mul(7_919) % count.max(1);
        newest = apply(&mut versions, edit_of(alloc, from, 1, 1)?)?;
    }
    let _ = println!(rt; "{newest}");
    Ok(())
}
