use crate::runs::{answer, repeated, words_of};
use km_ports::{MemSink, MemSource, Status, SureSource, VecSink};
use std::test::Fail;
use workbench::workbench;

// Scripts with their transcripts.
const SCRIPTS: [(&str, &str); 14] = [
    ("", "margin 0\nbye\n"),
    (
        "edit 1 0 6\nалг\nнач\nпривет\nкон\nалг привет\nнач кон\nedit 5 1 1\nалг здравствуй\n",
        "margin 0\nedit 1\nmargin 1\nedit 2\nmargin 2 3:402\nbye\n",
    ),
    (
        "edit 1 0 1\nалг\nedit 2 0 2\nнач\nкон\nedit 4 1 0\nedit 4 0 0\nwait\n",
        "margin 0\nedit 1\nmargin 1 1:302\nedit 2\nmargin 2\nedit refused range\nedit 3\nmargin 3\nwaited\nbye\n",
    ),
    ("edit 1 0 2\nалг\n", "margin 0\nbad 1\nbye\n"),
    ("edit 1 0 2\nалг", "margin 0\nbad 1\nbye\n"),
    (
        "edit 1 0\nrun x\nhello\n\n# note\nstop\n",
        "margin 0\nbad 1\nbad 2\nbad 3\nstop idle\nbye\n",
    ),
    (
        "run\nfield 1\n3 1 4 1\nwait",
        "margin 0\nrun 1 0\nrefused 1 main\nfield bad 1\nwaited\nbye\n",
    ),
    (
        "edit 0 0 0\nedit 2 0 0\nedit 1 1 0\n",
        "margin 0\nedit refused range\nedit refused range\nedit refused range\nbye\n",
    ),
    (
        "edit 1 0 0\nedit 1 0 0\n",
        "margin 0\nedit 1\nmargin 1\nedit 2\nmargin 2\nbye\n",
    ),
    ("edit 1 0 8193\n", "margin 0\nbad 1\nbye\n"),
    (
        "edit 1 0 1\r\nалг a\r\nwait\r\n",
        "margin 0\nedit 1\nmargin 1 1:302\nwaited\nbye\n",
    ),
    (
        " wait\nwait \nWAIT\nstop  \n",
        "margin 0\nbad 1\nbad 2\nbad 3\nbad 4\nbye\n",
    ),
    (
        "edit 1 0 3\nалг\nнач\nкон\nedit 2 1 0\nedit 1 2 1\nx := 1\n",
        "margin 0\nedit 1\nmargin 1\nedit 2\nmargin 2 2:301\nedit 3\nmargin 3 1:301\nbye\n",
    ),
    ("\u{feff}wait\n", "margin 0\nwaited\nbye\n"),
];

#[test]
fn requests_are_answered_in_order(rt: HostRuntime) -> Result<(), Fail> {
    for (script, wanted) in SCRIPTS {
        let (status, text) = answer(rt.alloc(), "plain", script.as_bytes())?;
        assert_eq!(rt; text.as_str(), wanted, "at {script}");
        assert_eq!(rt; status, Status::Fine);
    }
    Ok(())
}

#[test]
fn scripts_may_come_in_any_pieces(rt: HostRuntime) -> Result<(), Fail> {
    let alloc = rt.alloc();
    let words = words_of(alloc, "plain")?;
    let (script, wanted) = SCRIPTS[2];
    for size in 1..9 {
        let bytes = Vec::from_slice(alloc, script.as_bytes())?;
        let mut source = MemSource::new(bytes, size, Vec::new(alloc));
        let mut sink = VecSink::new(alloc);
        let status = workbench(alloc, words.as_slice(), &mut source, &mut sink);
        assert_eq!(rt; status, Status::Fine);
        assert_eq!(rt; sink.written(), wanted.as_bytes());
    }
    Ok(())
}

// What a line of so many letters is answered.
const LONG: [(usize, &str); 3] = [
    (1_024, "margin 0\nedit 1\nmargin 1 1:301\nbye\n"),
    (1_025, "margin 0\nedit refused long\nbye\n"),
    (4_097, "margin 0\nbad 1\nbye\n"),
];

#[test]
fn texts_have_limits(rt: HostRuntime) -> Result<(), Fail> {
    for (count, wanted) in LONG {
        let mut script = String::from_str(rt.alloc(), "edit 1 0 1\n")?;
        repeated(&mut script, "x", count)?;
        let (_, text) = answer(rt.alloc(), "plain", script.as_bytes())?;
        assert_eq!(rt; text.as_str(), wanted);
    }
    Ok(())
}

#[test]
fn a_script_that_is_not_read_is_a_read_fault(rt: HostRuntime) -> Result<(), Fail> {
    let alloc = rt.alloc();
    let words = words_of(alloc, "plain")?;
    let bytes = Vec::from_slice(alloc, "edit 1 0 1\nалг\nrun\n".as_bytes())?;
    let mut source = MemSource::new(bytes, 8, vec![in alloc; 3]?);
    let mut sink = VecSink::new(alloc);
    let status = workbench(alloc, words.as_slice(), &mut source, &mut sink);
    assert_eq!(rt; status.number(), 3);
    assert_eq!(rt; sink.written(), "margin 0\n".as_bytes());
    Ok(())
}

#[test]
fn a_transcript_that_is_not_written_is_a_write_fault(rt: HostRuntime) -> Result<(), Fail> {
    let alloc = rt.alloc();
    let words = words_of(alloc, "plain")?;
    let mut source = SureSource::new(Vec::from_slice(alloc, b"wait\n")?);
    let mut sink = MemSink::new(alloc, 4, vec![in alloc; 2]?);
    let status = workbench(alloc, words.as_slice(), &mut source, &mut sink);
    assert_eq!(rt; status.number(), 4);
    assert_eq!(rt; sink.written(), "marg".as_bytes());
    Ok(())
}

#[test]
fn a_sample_is_summed_up(rt: HostRuntime) -> Result<(), Fail> {
    let (status, text) = answer(rt.alloc(), "sample 0", b"")?;
    assert_eq!(rt; status.number(), 0);
    assert_eq!(rt;
        text.as_str(),
        "sample 0\nalgorithms 21\nversions 21\nfaults 0\nout 212\n"
    );
    Ok(())
}
