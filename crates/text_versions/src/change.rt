//! Changes of one line.
ghost use Rattle.std.specs.Prelude.{◌≡◌, ◌+◌, [], ◌∷◌, ◌++◌, take, drop, IfOk};
ghost use Rattle.std.specs.Str.{chars, encode_utf8_all};
ghost use Rattle.std.specs.String.{string_bytes};
ghost use Rattle.text_versions.specs.Changes.{changed};

use crate::edit::Edit;
use kumir_tree::{Line, Lines};
use std::alloc::{AllocError, Global};

/// The text with `added` in the place of `count` of its characters from place `from` on, counted from 0.
fn changed_text(
    alloc: Global,
    text: &str,
    from: u32,
    count: u32,
    added: &str,
) -> Result<String, AllocError>
    ensures { IfOk result (λ out.
        string_bytes out ≡ encode_utf8_all (changed (chars text.now) from count (chars added.now))) }
{
    let before = text.chars().take(from as usize);
    let behind = text.chars().skip(from as usize + count as usize);
    before.chain(added.chars()).chain(behind).collect(alloc)
}

/// The line with `added` in the place of `count` of its characters from place `from` on, counted from 0.
pub(crate) fn changed_line(
    alloc: Global,
    line: &Line,
    from: u32,
    count: u32,
    added: &Line,
) -> Result<Line, AllocError>
    ensures { IfOk result (λ out. out ≡ changed line.now from count added.now) }
{
    let text = changed_text(alloc, line.as_str(), from, count, added.as_str())?;
    Ok(Line::from_string(text))
}

/// The edit that puts the line in the place of the one with that number.
pub(crate) fn line_edit(alloc: Global, number: u32, line: Line) -> Result<Edit, AllocError>
    ensures { IfOk result (λ e. e ≡ record { from = number; count = 1; lines = line ∷ [] }) }
{
    let mut lines = Lines::new(alloc);
    lines.push(line)?;
    Ok(Edit {
        from: number,
        count: 1,
        lines,
    })
}
