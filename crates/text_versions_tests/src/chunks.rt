use crate::texts::{edit, line_of, lines_of, same_lines};
use km_base::{Memory, Steps, Uncounted};
use kumir_tree::Lines;
use std::alloc::{AllocError, Global};
use std::sync::Arc;
use std::test::Fail;
use text_versions::{Chunk, Edit, Text, Versions};

/// Whether the chunks of the text have so many lines each.
fn has_counts(text: &Text, counts: &[usize]) -> bool {
    let chunks = text.chunks();
    chunks.len() == counts.len()
        && chunks
            .iter()
            .zip(counts)
            .all(|(chunk, count)| chunk.lines().len() == *count)
}

/// The versions of a text of 130 lines.
fn begun(alloc: Global) -> Result<Versions, Memory> {
    let mut versions = Versions::new(alloc)?;
    let lines = same_lines(alloc, 130, "цел x")?;
    let _number = versions.apply(Edit {
        from: 1,
        count: 0,
        lines,
    });
    Ok(versions)
}

/// Whether the chunks have so many lines each after an edit of the text of 130 lines.
fn leaves(
    alloc: Global,
    (from, count, added): (u32, u32, u32),
    counts: &[usize],
) -> Result<bool, Memory> {
    let mut versions = begun(alloc)?;
    let lines = same_lines(alloc, added, "вывод x")?;
    let answer = versions.apply(Edit { from, count, lines });
    Ok(answer == Ok(2) && has_counts(&*versions.snapshot()?, counts))
}

#[test]
fn edits_cut_and_join_chunks(rt: HostRuntime) -> Result<(), Fail> {
    let alloc = rt.alloc();
    assert!(rt; has_counts(&*begun(alloc)?.snapshot()?, &[64, 64, 2]));
    assert!(rt; leaves(alloc, (131, 0, 1), &[64, 64, 3])?);
    assert!(rt; leaves(alloc, (1, 0, 1), &[1, 64, 64, 2])?);
    assert!(rt; leaves(alloc, (60, 69, 0), &[61])?);
    assert!(rt; leaves(alloc, (65, 64, 0), &[64, 2])?);
    assert!(rt; leaves(alloc, (1, 130, 0), &[])?);
    assert!(rt; leaves(alloc, (10, 1, 200), &[64, 64, 64, 64, 7, 64, 2])?);
    Ok(())
}

/// How many texts share each of the three chunks of the text of 130 lines, after an edit of its last line.
fn owners(alloc: Global) -> Result<(usize, usize, usize), Memory> {
    let mut versions = begun(alloc)?;
    let before = versions.snapshot()?;
    let _number = versions.apply(edit(alloc, 130, 1, &["вывод x"])?);
    match before.chunks() {
        [first, second, third] => Ok((
            Arc::strong_count(first),
            Arc::strong_count(second),
            Arc::strong_count(third),
        )),
        _ => Ok((0, 0, 0)),
    }
}

#[test]
fn texts_share_the_chunks_that_an_edit_leaves(rt: HostRuntime) -> Result<(), Fail> {
    assert_eq!(rt; owners(rt.alloc())?, (2, 2, 1));
    Ok(())
}

#[test]
fn a_chunk_counts_its_bytes(rt: HostRuntime) -> Result<(), Fail> {
    let lines = lines_of(rt.alloc(), &["аб", "c"])?;
    assert!(rt; lines.len() == 2);
    let chunk = Chunk::new(rt.alloc(), lines, &mut Steps::<Uncounted>::new())?;
    assert_eq!(rt; chunk.bytes(), 7);
    assert_eq!(rt; chunk.lines().len(), 2);
    Ok(())
}

/// Lines of `|` and their numbers.
fn numbered(alloc: Global, count: u32) -> Result<Lines, AllocError> {
    let mut lines = Lines::new(alloc);
    for number in 1..=count {
        let text = format!(in alloc; "|{number}")?;
        lines.push(line_of(alloc, text.as_str())?)?;
    }
    Ok(lines)
}

/// Whether each line of the text is `|` and its number, but `|x` where the number is a multiple of `step`.
fn is_numbered(alloc: Global, text: &Text, step: u32) -> Result<bool, AllocError> {
    for number in 1..=text.count() {
        let wanted = if number.is_multiple_of(step) {
            String::from_str(alloc, "|x")?
        } else {
            format!(in alloc; "|{number}")?
        };
        match text.line(number) {
            Some(line) if line.as_str() == wanted.as_str() => {}
            _ => return Ok(false),
        }
    }
    Ok(text.count() == 8_000)
}

/// A text of 8,000 lines, and that text after an edit of each 80th line.
fn edited(alloc: Global) -> Result<(Arc<Text>, Arc<Text>), Memory> {
    let mut versions = Versions::new(alloc)?;
    let _first = versions.apply(Edit {
        from: 1,
        count: 0,
        lines: numbered(alloc, 8_000)?,
    });
    let before = versions.snapshot()?;
    for turn in 1..=100_u32 {
        let _number = versions.apply(edit(alloc, turn * 80, 1, &["|x"])?);
    }
    Ok((before, versions.snapshot()?))
}

#[test]
fn edits_of_each_80th_line_leave_the_others(rt: HostRuntime) -> Result<(), Fail> {
    let (before, after) = edited(rt.alloc())?;
    assert!(rt; is_numbered(rt.alloc(), &before, 8_001)?);
    assert!(rt; is_numbered(rt.alloc(), &after, 80)?);
    Ok(())
}
