use km_base::Memory;
use kumir_tree::Chars;
use kumir_values::{EndKind, RunFault};
use margins::{Margin, Mark};
use performer_kit::{PenCommand, Reply, RobotCommand, Segment};
use std::alloc::{AllocError, Global};
use std::test::Fail;
use transcript::{Entry, TranscriptRefusal, print_entry, read_entries};

fn chars(alloc: Global, text: &str) -> Result<Chars, AllocError> {
    let mut chars = Vec::new(alloc);
    for c in text.chars() {
        chars.push(c).map_err(AllocError::from)?;
    }
    Ok(Chars::from_vec(chars))
}

#[test]
fn answers_print_as_lines(rt: HostRuntime) -> Result<(), Fail> {
    let alloc = rt.alloc();
    assert_eq!(rt;
        print_entry(alloc, &Entry::Edit { version: 2 })?.as_str(),
        "edit 2\n"
    );
    assert_eq!(rt;
        print_entry(alloc, &Entry::EditRange)?.as_str(),
        "edit refused range\n"
    );
    assert_eq!(rt;
        print_entry(alloc, &Entry::EditLong)?.as_str(),
        "edit refused long\n"
    );
    assert_eq!(rt;
        print_entry(alloc, &Entry::EditMany)?.as_str(),
        "edit refused many\n"
    );
    assert_eq!(rt; print_entry(alloc, &Entry::FieldOk)?.as_str(), "field ok\n");
    assert_eq!(rt;
        print_entry(alloc, &Entry::FieldBad { line: 1 })?.as_str(),
        "field bad 1\n"
    );
    assert_eq!(rt;
        print_entry(
            alloc,
            &Entry::Run {
                run: 1,
                version: 12
            }
        )?
        .as_str(),
        "run 1 12\n"
    );
    assert_eq!(rt;
        print_entry(alloc, &Entry::RunBusy)?.as_str(),
        "run refused busy\n"
    );
    assert_eq!(rt;
        print_entry(alloc, &Entry::Stop { run: 1 })?.as_str(),
        "stop 1\n"
    );
    assert_eq!(rt;
        print_entry(alloc, &Entry::StopIdle)?.as_str(),
        "stop idle\n"
    );
    assert_eq!(rt; print_entry(alloc, &Entry::Waited)?.as_str(), "waited\n");
    assert_eq!(rt;
        print_entry(alloc, &Entry::Bad { line: 3 })?.as_str(),
        "bad 3\n"
    );
    assert_eq!(rt;
        print_entry(alloc, &Entry::RefusedFaults { run: 1 })?.as_str(),
        "refused 1 faults\n"
    );
    assert_eq!(rt;
        print_entry(alloc, &Entry::RefusedMain { run: 1 })?.as_str(),
        "refused 1 main\n"
    );
    assert_eq!(rt; print_entry(alloc, &Entry::Bye)?.as_str(), "bye\n");
    Ok(())
}

#[test]
fn runs_print_as_lines(rt: HostRuntime) -> Result<(), Fail> {
    let alloc = rt.alloc();
    let mut margin = Margin::new(alloc);
    for (line, code) in [(6, 402), (8, 402)] {
        assert!(rt; margin.is_before(line));
        margin.push(Mark { line, code })?;
    }
    assert_eq!(rt;
        print_entry(alloc, &Entry::Margin { version: 6, margin })?.as_str(),
        "margin 6 6:402 8:402\n"
    );
    let out = Entry::Out {
        run: 1,
        text: chars(alloc, "а\\\nб ")?,
    };
    assert_eq!(rt; print_entry(alloc, &out)?.as_str(), "out 1 а\\\\\\nб \n");
    let robot = Entry::Robot {
        run: 1,
        number: 7,
        command: RobotCommand::RightFree,
        reply: Reply::No,
    };
    assert_eq!(rt;
        print_entry(alloc, &robot)?.as_str(),
        "robot 1 7 справа_свободно нет\n"
    );
    let pen = Entry::Pen {
        run: 1,
        number: 3,
        command: PenCommand::By { dx: 1, dy: -2 },
        reply: Reply::Drawn(Segment {
            x1: 1,
            y1: -2,
            x2: 2_147_483_648,
            y2: -4,
        }),
    };
    assert_eq!(rt;
        print_entry(alloc, &pen)?.as_str(),
        "pen 1 3 сместиться_на_вектор 1 -2 line 1 -2 2147483648 -4\n"
    );
    let end = Entry::End {
        run: 2,
        end: EndKind::Fault {
            line: 4,
            fault: RunFault::InputType,
        },
    };
    assert_eq!(rt;
        print_entry(alloc, &end)?.as_str(),
        "end 2 fault 4 input-type\n"
    );
    let end = Entry::End {
        run: 1,
        end: EndKind::Wall { line: 8 },
    };
    assert_eq!(rt; print_entry(alloc, &end)?.as_str(), "end 1 wall 8\n");
    Ok(())
}

/// The first line that no entry prints, and 0 where each line is one of an entry.
fn first_bad(alloc: Global, bytes: &[u8]) -> Result<u32, Memory> {
    if bytes.len() > 1_000 {
        return Err(Memory);
    }
    match read_entries(alloc, bytes) {
        Ok(_) => Ok(0),
        Err(TranscriptRefusal::NotEntry { line }) => Ok(line),
        Err(TranscriptRefusal::Memory) => Err(Memory),
    }
}

#[test]
fn lines_of_entries_are_read(rt: HostRuntime) -> Result<(), Fail> {
    let lines = [
        "edit 2\n",
        "edit refused many\n",
        "field ok\n",
        "field bad 1\n",
        "run 1 12\n",
        "run refused busy\n",
        "stop 1\n",
        "stop idle\n",
        "waited\n",
        "margin 6 6:402 8:402\n",
        "margin 0\n",
        "refused 1 main\n",
        "out 1 а\\\\\\nб \n",
        "robot 1 7 справа_свободно нет\n",
        "pen 1 3 сместиться_на_вектор 1 -2 line 1 -2 2147483648 -4\n",
        "pen 1 4 поднять_перо done\n",
        "end 2 fault 4 input-type\n",
        "bye\n",
    ];
    for line in lines {
        assert_eq!(rt; first_bad(rt.alloc(), line.as_bytes())?, 0, "{line}");
    }
    Ok(())
}

#[test]
fn other_spellings_are_not_read(rt: HostRuntime) -> Result<(), Fail> {
    let lines = [
        "\n",
        "edit 02\n",
        "edit +2\n",
        "edit  2\n",
        "edit\n",
        "bye \n",
        "edit 4294967296\n",
        "margin 6 8:402 6:402\n",
        "out 1\n",
        "out 1 \\а\n",
        "robot 1 7 вверх line 0 0 1 1\n",
        "pen 1 3 сместиться_на_вектор 1 -0 done\n",
        "end 2 fault 4 input\n",
    ];
    for line in lines {
        assert_eq!(rt; first_bad(rt.alloc(), line.as_bytes())?, 1, "{line}");
    }
    Ok(())
}

#[test]
fn a_transcript_is_read_whole(rt: HostRuntime) -> Result<(), Fail> {
    let text =
        "margin 0\nfield ok\nedit 1\nmargin 1\nrun 1 1\nrobot 1 1 справа_свободно да\nrobot 1 2 закрасить done\nrobot 1 3 вправо done\nrobot 1 4 справа_свободно да\nrobot 1 5 закрасить done\nrobot 1 6 вправо done\nrobot 1 7 справа_свободно нет\nrobot 1 8 вправо wall\nend 1 wall 8\nbye\n";
    assert!(rt; text.len() < 1_000);
    assert_eq!(rt; read_entries(rt.alloc(), text.as_bytes())?.len(), 15);
    Ok(())
}

#[test]
fn the_first_line_of_no_entry_is_told(rt: HostRuntime) -> Result<(), Fail> {
    let cases = [
        ("", 0),
        ("bye\n", 0),
        ("bye", 1),
        ("\n", 1),
        ("margin 0\nbye", 2),
        ("margin 0\n\nbye\n", 2),
        ("margin 0\nedit 01\nbad\n", 2),
        ("waited\r\n", 1),
        ("edit 1\nrun 1  1\n", 2),
        ("edit 1\nmargin 1 5:201 3:201\n", 2),
        ("run 1 1\nrobot 1 1 вверх\n", 2),
        ("run 1 1\nend 1 done\nbye\nbye\n", 0),
    ];
    for (text, line) in cases {
        assert_eq!(rt; first_bad(rt.alloc(), text.as_bytes())?, line, "{text}");
    }
    assert_eq!(rt; first_bad(rt.alloc(), b"bye\n\xff\n")?, 2);
    Ok(())
}
