//! Lines, edits and texts that the tests are made of.
use km_base::{Steps, Uncounted};
use kumir_tree::{Line, Lines};
use std::alloc::{AllocError, Global};
use text_versions::{ApplyRefusal, Edit, Text, Versions, limits_of};

pub fn line_of(alloc: Global, text: &str) -> Result<Line, AllocError> {
    Line::of_text(alloc, text).map_err(|_| AllocError)
}

pub fn lines_of(alloc: Global, texts: &[&str]) -> Result<Lines, AllocError> {
    let mut lines = Lines::new(alloc);
    for text in texts {
        lines.push(line_of(alloc, text)?)?;
    }
    Ok(lines)
}

/// So many times the same line.
pub fn same_lines(alloc: Global, count: u32, text: &str) -> Result<Lines, AllocError> {
    let mut lines = Lines::new(alloc);
    for _ in 0..count {
        lines.push(line_of(alloc, text)?)?;
    }
    Ok(lines)
}

pub fn edit(alloc: Global, from: u32, count: u32, texts: &[&str]) -> Result<Edit, AllocError> {
    Ok(Edit {
        from,
        count,
        lines: lines_of(alloc, texts)?,
    })
}

/// Whether the text has these lines and no others.
pub fn has_lines(text: &Text, texts: &[&str]) -> bool {
    for (number, wanted) in (1..).zip(texts) {
        match text.line(number) {
            Some(line) if line.as_str() == *wanted => {}
            _ => return false,
        }
    }
    text.line(0).is_none() && text.count() as usize == texts.len()
}

/// A text of so many letters.
pub fn letters(alloc: Global, count: u32) -> Result<String, AllocError> {
    let mut text = String::new(alloc);
    for _ in 0..count {
        text.push('x')?;
    }
    Ok(text)
}

/// `apply_within` with the limits of a script of version 2 or 1, where nobody reads off how many chunks are made.
pub fn apply(versions: &mut Versions, edit: Edit, second: bool) -> Result<u32, ApplyRefusal> {
    versions.apply_within(edit, limits_of(second), &mut Steps::<Uncounted>::new())
}
