use crate::texts::{edit, line_of};
use km_base::{Memory, Steps, Uncounted};
use std::alloc::Global;
use std::test::Fail;
use text_versions::{ApplyRefusal, TEXT_LIMITS, Versions};

/// Whether the change of a text of two lines leaves that as its second line; `Range` where there is none.
fn gives(
    alloc: Global,
    (line, from, count): (u32, u32, u32),
    text: &str,
    wanted: Option<&str>,
) -> Result<bool, Memory> {
    let mut versions = Versions::new(alloc)?;
    let begun = versions.apply(edit(alloc, 1, 0, &["алг", "a😀я"])?);
    let answer = versions.change_within(
        line,
        from,
        count,
        line_of(alloc, text)?,
        TEXT_LIMITS,
        &mut Steps::<Uncounted>::new(),
    );
    let newest = versions.snapshot()?;
    let second = newest.line(2).map(|line| line.as_str());
    Ok(
        begun == Ok(1)
            && match wanted {
                Some(_) => answer == Ok(2) && second == wanted,
                None => answer == Err(ApplyRefusal::Range) && second == Some("a😀я"),
            },
    )
}

#[test]
fn changes_put_characters_in_the_place_of_characters(rt: HostRuntime) -> Result<(), Fail> {
    for (change, text, wanted) in [
        ((2, 0, 1), "б", Some("б😀я")),
        ((2, 1, 1), "", Some("aя")),
        ((2, 2, 1), "😀", Some("a😀😀")),
        ((2, 0, 0), "б", Some("бa😀я")),
        ((2, 3, 0), "б", Some("a😀яб")),
        ((2, 0, 3), "", Some("")),
        ((2, 1, 2), "кон", Some("aкон")),
        ((2, 0, 4), "", None),
        ((2, 3, 1), "", None),
        ((2, 4, 0), "", None),
        ((2, 4_294_967_295, 4_294_967_295), "", None),
        ((0, 0, 0), "", None),
        ((3, 0, 0), "", None),
    ] {
        assert!(rt; gives(rt.alloc(), change, text, wanted)?);
    }
    Ok(())
}
