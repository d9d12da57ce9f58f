use crate::texts::{edit, has_lines, letters, lines_of};
use kumir_tree::Line;
use std::test::Fail;
use text_versions::{ApplyRefusal, Text, TextRefusal, Versions};

#[test]
fn edits_make_versions_and_snapshots_stay(rt: HostRuntime) -> Result<(), Fail> {
    let mut versions = Versions::new(rt.alloc())?;
    assert_eq!(rt; versions.apply(edit(rt.alloc(), 1, 0, &["алг"])?), Ok(1));
    let first = versions.snapshot()?;
    assert_eq!(rt;
        versions.apply(edit(rt.alloc(), 2, 0, &["нач", "кон"])?),
        Ok(2)
    );
    for (from, count) in [(4, 1), (0, 0), (5, 0), (4_294_967_295, 4_294_967_295)] {
        assert_eq!(rt;
            versions.apply(edit(rt.alloc(), from, count, &[])?),
            Err(ApplyRefusal::Range)
        );
    }
    let long = letters(rt.alloc(), 1_025)?;
    assert_eq!(rt;
        versions.apply(edit(rt.alloc(), 1, 0, &[long.as_str()])?),
        Err(ApplyRefusal::TooLong)
    );
    assert_eq!(rt; versions.newest(), 2);
    assert_eq!(rt; versions.apply(edit(rt.alloc(), 4, 0, &[])?), Ok(3));
    assert_eq!(rt;
        versions.apply(edit(rt.alloc(), 1, 2, &["", "конец"])?),
        Ok(4)
    );
    assert!(rt; has_lines(&*versions.snapshot()?, &["", "конец", "кон"]));
    assert!(rt; has_lines(&*first, &["алг"]));
    Ok(())
}

#[test]
fn texts_are_refused_past_each_limit(rt: HostRuntime) -> Result<(), Fail> {
    let long = letters(rt.alloc(), 1_024)?;
    let mut lines = lines_of(rt.alloc(), &[long.as_str(), "алг", "кон"])?;
    let text = Text::from_lines(rt.alloc(), lines)?;
    assert!(rt; has_lines(&text, &[long.as_str(), "алг", "кон"]));
    lines = lines_of(rt.alloc(), &[])?;
    for _ in 0..256 {
        lines.push(Line::of_text(rt.alloc(), long.as_str())?)?;
    }
    // 256 lines of 1,024 bytes and 255 bytes between them are too many
    assert!(rt;
        matches!(
            Text::from_lines(rt.alloc(), lines),
            Err(TextRefusal::TooLong)
        )
    );
    lines = lines_of(rt.alloc(), &[])?;
    for _ in 0..8_193 {
        lines.push(Line::of_text(rt.alloc(), "")?)?;
    }
    assert!(rt;
        matches!(
            Text::from_lines(rt.alloc(), lines),
            Err(TextRefusal::TooLong)
        )
    );
    Ok(())
}
