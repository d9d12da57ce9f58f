//! Copies of lines.
ghost use Rattle.std.specs.Prelude.{◌≡◌, ◌++◌, ◌-◌, ◌≤◌, take, drop, OnOk, slice_range};
ghost use Rattle.text_versions.specs.Chunks.{lines_in};

use crate::chunk::Chunk;
use km_base::Memory;
use kumir_tree::Line;
use std::alloc::Global;
use std::sync::Arc;

/// Copies the lines to the end of `out`.
pub(crate) fn copy_lines(alloc: Global, out: &mut Vec<Line>, lines: &[Line]) -> Result<(), Memory>
    ensures { OnOk result (out.new.items ≡ out.old.items ++ lines.now) }
{
    for line in lines {
        out.push(line.copy(alloc)?)?;
    }
    Ok(())
}

/// Copies the lines of the chunks from line `from` to before line `to`, counted from 0, to the end of `out`.
pub(crate) fn copy_between(
    alloc: Global,
    out: &mut Vec<Line>,
    chunks: &[Arc<Chunk>],
    mut from: usize,
    mut to: usize,
) -> Result<(), Memory>
    requires { from ≤ to }
    ensures { OnOk result (out.new.items ≡ out.old.items ++ slice_range (lines_in chunks.now) from to) }
{
    for chunk in chunks {
        if to == 0 {
            return Ok(());
        }
        let lines = chunk.lines();
        let begin = from.min(lines.len());
        let end = to.min(lines.len());
        copy_lines(alloc, out, &lines[begin..end])?;
        from -= begin;
        to -= end;
    }
    Ok(())
}
