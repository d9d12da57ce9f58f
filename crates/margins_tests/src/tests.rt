use kumir_tree::fault_codes::FAULT_CODES;
use margins::{Margin, MarginRefusal, Mark, print_lines, print_margin, read_margin, read_marks};
use std::alloc::Global;
use std::test::Fail;

/// Whether the text is read as a margin that prints as it.
fn reads(alloc: Global, text: &str) -> Result<bool, MarginRefusal> {
    match read_margin(alloc, text) {
        Ok(margin) => Ok(print_margin(alloc, &margin)?.as_str() == text),
        Err(MarginRefusal::NotMargin) => Ok(false),
        Err(MarginRefusal::Memory) => Err(MarginRefusal::Memory),
    }
}

#[test]
fn margins_are_the_texts_that_margins_print(rt: HostRuntime) -> Result<(), Fail> {
    let cases = [
        ("", true),
        (" 3:402 5:301", true),
        (" 0:101", true),
        (" 4294967295:407", true),
        (" 5:301 3:402", false),
        (" 3:402 3:403", false),
        (" 3:406", false),
        (" 03:402", false),
        (" 3:+402", false),
        (" 4294967296:402", false),
        ("3:402", false),
        (" 3:402 ", false),
        (" ", false),
        (" 3", false),
    ];
    for (text, is_margin) in cases {
        assert_eq!(rt; reads(rt.alloc(), text)?, is_margin, "{text}");
    }
    Ok(())
}

#[test]
fn marks_are_pushed_printed_and_copied(rt: HostRuntime) -> Result<(), Fail> {
    let mut margin = Margin::new(rt.alloc());
    for (line, code) in [(3, 104), (4, 104)] {
        assert!(rt; margin.is_before(line));
        margin.push(Mark { line, code })?;
    }
    assert!(rt; !margin.is_before(4));
    let copied = margin.copy(rt.alloc())?;
    assert_eq!(rt; copied.marks(), margin.marks());
    assert_eq!(rt; copied.marks().len(), 2);
    assert_eq!(rt;
        print_lines(rt.alloc(), &copied)?.as_str(),
        "3 104\n4 104\n"
    );
    assert_eq!(rt; print_margin(rt.alloc(), &copied)?.as_str(), " 3:104 4:104");
    Ok(())
}

#[test]
fn any_code_is_read_where_no_code_is_asked_for(rt: HostRuntime) -> Result<(), Fail> {
    let margin = read_marks(rt.alloc(), " 3:406 5:0")?;
    assert_eq!(rt; margin.marks().len(), 2);
    assert_eq!(rt; FAULT_CODES.len(), 14);
    Ok(())
}
