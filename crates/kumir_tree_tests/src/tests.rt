use kumir_tree::{Block, Case, Cases, Expr, Line, LineRefusal, Statement, What};
use sqlite_items::Items;
use std::alloc::{AllocError, Global};
use std::test::Fail;

const STATEMENTS: u32 = 100_000;

const CASES: u32 = 20_000;

fn leaves(alloc: Global, count: u32) -> Result<Block, AllocError> {
    let mut block = Items::new(alloc);
    for line in 0..count {
        block.push(Statement {
            line,
            what: What::Leave,
        })?;
    }
    Ok(block)
}

fn cases(alloc: Global, count: u32) -> Result<Cases, AllocError> {
    let mut cases = Items::new(alloc);
    for line in 0..count {
        cases.push(Case {
            line,
            condition: Expr::Truth(true),
            body: leaves(alloc, 1)?,
        })?;
    }
    Ok(cases)
}

// How many statements stand in the block itself, and how many cases in its choices.
fn counted(block: &[Statement]) -> (usize, usize) {
    let mut chosen = 0_usize;
    for statement in block {
        if let What::Select(cases, _) = &statement.what {
            chosen = chosen.saturating_add(cases.len());
        }
    }
    (block.len(), chosen)
}

#[test]
fn long_lists_are_built_walked_and_dropped(rt: HostRuntime) -> Result<(), Fail> {
    let alloc = rt.alloc();
    let mut block = leaves(alloc, STATEMENTS)?;
    let what = What::Select(cases(alloc, CASES)?, leaves(alloc, STATEMENTS)?);
    block.push(Statement { line: 0, what })?;
    assert_eq!(rt; counted(block.as_slice()), (100_001, 20_000));
    Ok(())
}

#[test]
fn a_deep_chain_is_copied(rt: HostRuntime) -> Result<(), Fail> {
    let alloc = rt.alloc();
    let mut expr = Expr::Number(7);
    for _ in 0..1_024 {
        expr = Expr::minus_of(alloc, expr)?;
    }
    let copied = expr.copy(alloc)?;
    let mut signs = 0_u32;
    let mut at = &copied;
    while let Expr::Minus(inner) = at {
        signs = signs.saturating_add(1);
        at = inner.get();
    }
    assert_eq!(rt; signs, 1_024);
    Ok(())
}

// The length of the line with this text in bytes.
fn line_len(alloc: Global, text: &str) -> Result<usize, LineRefusal> {
    let line = Line::of_text(alloc, text)?;
    Ok(line.as_str().len())
}

#[test]
fn a_line_has_no_line_feed(rt: HostRuntime) -> Result<(), Fail> {
    for (text, len) in [
        ("", Ok(0)),
        ("нц пока", Ok(13)),
        ("\r\t", Ok(2)),
        ("\n", Err(LineRefusal::LineFeed)),
        ("а\nб", Err(LineRefusal::LineFeed)),
    ] {
        assert_eq!(rt; line_len(rt.alloc(), text), len, "{text}");
    }
    Ok(())
}
