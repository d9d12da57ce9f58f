use crate::texts::{apply, edit, letters, line_of, same_lines};
use km_base::{Memory, Steps, Uncounted};
use std::alloc::Global;
use std::test::Fail;
use text_versions::{ApplyRefusal, Edit, Versions, limits_of};

/// The versions of a text, to which so many lines of so many letters were added, and what came of that.
fn begun(
    alloc: Global,
    second: bool,
    count: u32,
    characters: u32,
) -> Result<(Versions, Result<u32, ApplyRefusal>), Memory> {
    let mut versions = Versions::new(alloc)?;
    let line = letters(alloc, characters)?;
    let edit = Edit {
        from: 1,
        count: 0,
        lines: same_lines(alloc, count, line.as_str())?,
    };
    let answer = apply(&mut versions, edit, second);
    Ok((versions, answer))
}

/// What comes of one letter more at the beginning of the line.
fn one_more(
    alloc: Global,
    versions: &mut Versions,
    line: u32,
    second: bool,
) -> Result<Result<u32, ApplyRefusal>, Memory> {
    let text = line_of(alloc, "x")?;
    let made = &mut Steps::<Uncounted>::new();
    Ok(versions.change_within(line, 0, 0, text, limits_of(second), made))
}

#[test]
fn edits_are_refused_past_each_limit(rt: HostRuntime) -> Result<(), Fail> {
    let alloc = rt.alloc();
    for second in [false, true] {
        let limits = limits_of(second);
        for (count, characters, answer) in [
            (limits.lines, 0, Ok(1)),
            (limits.lines + 1, 0, Err(ApplyRefusal::TooLong)),
            (1, limits.characters, Ok(1)),
            (1, limits.characters + 1, Err(ApplyRefusal::TooLong)),
        ] {
            assert_eq!(rt; begun(alloc, second, count, characters)?.1, answer);
        }
    }
    Ok(())
}

// Lines of 1,023 letters and the bytes between them are one byte less than the limit.
#[test]
fn changes_are_refused_past_each_limit(rt: HostRuntime) -> Result<(), Fail> {
    let alloc = rt.alloc();
    for second in [false, true] {
        let limits = limits_of(second);
        let (mut versions, answer) = begun(alloc, second, limits.bytes / 1_024, 1_023)?;
        assert_eq!(rt; answer, Ok(1));
        assert_eq!(rt; one_more(alloc, &mut versions, 1, second)?, Ok(2));
        assert_eq!(rt;
            one_more(alloc, &mut versions, 2, second)?,
            Err(ApplyRefusal::TooLong)
        );
        let (mut short, answer) = begun(alloc, second, 2, limits.characters)?;
        assert_eq!(rt; answer, Ok(1));
        assert_eq!(rt;
            one_more(alloc, &mut short, 2, second)?,
            Err(ApplyRefusal::TooLong)
        );
    }
    Ok(())
}

/// The versions of the empty text, and the number of the newest one.
fn all_versions(alloc: Global, second: bool) -> Result<(Versions, u32), Memory> {
    let mut versions = Versions::new(alloc)?;
    let mut newest = 0;
    for _ in 0..limits_of(second).versions {
        if let Ok(number) = apply(&mut versions, edit(alloc, 1, 0, &[])?, second) {
            newest = number;
        }
    }
    Ok((versions, newest))
}

#[test]
fn newest_version_has_at_most_its_greatest_number(rt: HostRuntime) -> Result<(), Fail> {
    let alloc = rt.alloc();
    for second in [false, true] {
        let limits = limits_of(second);
        let (mut versions, newest) = all_versions(alloc, second)?;
        assert_eq!(rt; newest, limits.versions);
        for (from, answer) in [(1, ApplyRefusal::TooMany), (2, ApplyRefusal::Range)] {
            assert_eq!(rt;
                apply(&mut versions, edit(alloc, from, 0, &[])?, second),
                Err(answer)
            );
        }
        assert_eq!(rt; versions.newest(), limits.versions);
    }
    Ok(())
}
