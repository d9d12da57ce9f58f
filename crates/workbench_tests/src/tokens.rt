use crate::runs::{answer, words_of};
use km_ports::{Excess, MemSink, MemSource, Source, Status, SureSource, VecSink};
use std::alloc::{AllocError, Global};
use std::test::Fail;
use workbench::{Complaint, workbench};

const TEXTS: [(&[u8], &str); 7] = [
    (b"", ""),
    (b"\xef\xbb\xbf", ""),
    (b"\n\n", ""),
    (
        b"\xef\xbb\xbf\xd0\xb2  \xd0\xb3(1,-2)\r\n",
        "1 0 4 name в г\n1 4 5 sign (\n1 5 6 number 1\n1 6 7 sign ,\n1 7 8 sign -\n1 8 9 number 2\n1 9 10 sign )\n",
    ),
    (
        b"a ? b\n7\n\n\"x\ny",
        "1 0 1 name a\n1 2 2 fault 101\n2 0 1 number 7\n4 0 0 fault 102\n5 0 1 name y\n",
    ),
    (
        b"a\r\r\nb\r",
        "1 0 1 name a\n1 1 1 fault 101\n2 0 1 name b\n2 1 1 fault 101\n",
    ),
    (
        b"2147483647 2147483648",
        "1 0 10 number 2147483647\n1 11 11 fault 103\n",
    ),
];

#[test]
fn texts_are_cut_line_by_line(rt: HostRuntime) -> Result<(), Fail> {
    for (input, wanted) in TEXTS {
        let (status, text) = answer(rt.alloc(), "tokens", input)?;
        assert_eq!(rt; status.number(), 0);
        assert_eq!(rt; text.as_str(), wanted);
    }
    Ok(())
}

#[test]
fn input_that_is_no_text_is_refused(rt: HostRuntime) -> Result<(), Fail> {
    let (status, text) = answer(rt.alloc(), "tokens", b"\xd0\xb0\x0a\xff")?;
    assert!(rt; matches!(status, Status::NotUtf8 { place: 3 }));
    assert!(rt; text.is_empty());
    Ok(())
}

// A text: so often a line with so many signs `|`, each line with its end, and then these bytes.
fn bars(alloc: Global, lines: usize, width: usize, rest: &[u8]) -> Result<Vec<u8>, AllocError> {
    let mut text = Vec::new(alloc);
    for _ in 0..lines {
        for _ in 0..width {
            text.push(b'|')?;
        }
        text.push(b'\n')?;
    }
    text.extend_from_slice(rest)?;
    Ok(text)
}

// The lines, the signs on each, what follows, and what `tokens` answers.
const LIMITS: [(usize, usize, &[u8], Status); 11] = [
    (256, 1_023, b"", Status::Fine),
    (255, 1_023, b"||||", Status::Fine),
    (256, 1_023, b"|", Status::TooLong(Excess::Bytes)),
    (256, 1_023, b"\xff", Status::TooLong(Excess::Bytes)),
    (8_192, 3, b"", Status::Fine),
    (8_192, 3, b"|", Status::TooLong(Excess::Lines)),
    (8_192, 3, b"\xff", Status::NotUtf8 { place: 32_768 }),
    (3, 1_024, b"", Status::Fine),
    (
        3,
        1_025,
        b"",
        Status::TooLong(Excess::Characters { line: 1 }),
    ),
    (3, 1_025, b"\xff", Status::NotUtf8 { place: 3_078 }),
    (9_000, 20, b"", Status::TooLong(Excess::Lines)),
];

#[test]
fn the_limits_are_exact_and_in_order(rt: HostRuntime) -> Result<(), Fail> {
    for (lines, width, rest, wanted) in LIMITS {
        let input = bars(rt.alloc(), lines, width, rest)?;
        for command in ["tokens", "check"] {
            let (status, text) = answer(rt.alloc(), command, input.as_slice())?;
            assert_eq!(rt; status, wanted, "at {lines} lines of {width}");
            assert!(rt; text.is_empty());
        }
    }
    Ok(())
}

#[test]
fn the_first_long_line_is_named(rt: HostRuntime) -> Result<(), Fail> {
    let mut input = bars(rt.alloc(), 2, 1_024, b"")?;
    let more = bars(rt.alloc(), 2, 1_025, b"")?;
    input.extend_from_slice(more.as_slice())?;
    let (status, _) = answer(rt.alloc(), "tokens", input.as_slice())?;
    assert_eq!(rt; status, Status::TooLong(Excess::Characters { line: 3 }));
    Ok(())
}

#[test]
fn a_source_that_fails_is_a_read_fault(rt: HostRuntime) -> Result<(), Fail> {
    let alloc = rt.alloc();
    let words = words_of(alloc, "tokens")?;
    let bytes = Vec::from_slice(alloc, b"a := 1; b := 2; c := 3; d := 4")?;
    let mut source = MemSource::new(bytes, 8, vec![in alloc; 3]?);
    let mut sink = VecSink::new(alloc);
    let status = workbench(alloc, words.as_slice(), &mut source, &mut sink);
    assert_eq!(rt; status.number(), 3);
    assert!(rt; sink.written().is_empty());
    Ok(())
}

#[test]
fn a_sink_that_fails_is_a_write_fault(rt: HostRuntime) -> Result<(), Fail> {
    let alloc = rt.alloc();
    let words = words_of(alloc, "tokens")?;
    for (fails, written) in [(1, ""), (2, "1 0 1 nam")] {
        let mut source = SureSource::new(Vec::from_slice(alloc, b"a\nb")?);
        let mut sink = MemSink::new(alloc, 9, vec![in alloc; fails]?);
        let status = workbench(alloc, words.as_slice(), &mut source, &mut sink);
        assert_eq!(rt; status.number(), 4);
        assert_eq!(rt; sink.written(), written.as_bytes());
    }
    Ok(())
}

// Lines of words that are no command.
const OTHER_WORDS: [&str; 15] = [
    "",
    "check x",
    "tokens x",
    "help",
    "-",
    "--",
    "--help",
    "Tokens",
    "tokens ",
    "--steps 5 plain",
    "plain --steps",
    "plain --steps 0",
    "plain --steps=5",
    "plain --steps 5 --steps 5",
    "sample 01",
];

// The status that the words get, and whether nothing was read or written.
fn refusal(alloc: Global, words: &[String]) -> Result<(u8, bool), AllocError> {
    let mut source = SureSource::new(Vec::from_slice(alloc, b"a")?);
    let mut sink = VecSink::new(alloc);
    let status = workbench(alloc, words, &mut source, &mut sink);
    let mut piece = [0];
    let unread = source.take(&mut piece).is_ok() && piece[0] == b'a';
    Ok((status.number(), unread && sink.written().is_empty()))
}

#[test]
fn other_words_are_refused_unread(rt: HostRuntime) -> Result<(), Fail> {
    let alloc = rt.alloc();
    for line in OTHER_WORDS {
        let words = words_of(alloc, line)?;
        let (status, untouched) = refusal(alloc, words.as_slice())?;
        assert_eq!(rt; status, 2, "at {line}");
        assert!(rt; untouched);
    }
    let (status, untouched) = refusal(alloc, &[])?;
    assert_eq!(rt; status, 2);
    assert!(rt; untouched);
    Ok(())
}

// What the program says of this status.
fn said(alloc: Global, status: Status) -> Result<String, AllocError> {
    match Complaint::of(&status) {
        Some(complaint) => format!(in alloc; "{complaint}"),
        None => Ok(String::new(alloc)),
    }
}

#[test]
fn complaints_are_said(rt: HostRuntime) -> Result<(), Fail> {
    let wanted = [
        (Status::Fine, ""),
        (Status::Faults, ""),
        (Status::Words, "workbench: words"),
        (Status::Read, "workbench: read fault"),
        (Status::Write, "workbench: write fault"),
        (Status::Memory, "workbench: want of memory"),
        (Status::NotUtf8 { place: 0 }, "workbench: not UTF-8"),
        (Status::TooLong(Excess::Bytes), "workbench: input too long"),
    ];
    for (status, text) in wanted {
        assert_eq!(rt; said(rt.alloc(), status)?.as_str(), text);
    }
    Ok(())
}
