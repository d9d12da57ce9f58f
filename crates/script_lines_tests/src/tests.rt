use km_base::Memory;
use script_lines::{Ask, Request, ScriptReader};
use std::alloc::Global;
use std::fmt::Write;
use std::test::Fail;

/// Adds a line about the request.
fn show(out: &mut String, request: &Request) -> Result<(), Memory> {
    let line = request.line;
    match &request.ask {
        Ask::Edit(edit) => {
            let from = edit.from;
            let count = edit.count;
            let added = edit.lines.len();
            write!(out, "{line} edit {from} {count} {added};")?;
        }
        Ask::Field(lines) => {
            let lines = lines.len();
            write!(out, "{line} field {lines};")?;
        }
        Ask::Run(inputs) => {
            let inputs = inputs.len();
            write!(out, "{line} run {inputs};")?;
        }
        Ask::Stop => write!(out, "{line} stop;")?,
        Ask::Wait => write!(out, "{line} wait;")?,
        Ask::Bad => write!(out, "{line} bad;")?,
    }
    Ok(())
}

/// What is shown of the requests of the script, which is fed in two pieces that part after `cut` bytes.
fn shown(alloc: Global, script: &[u8], cut: usize) -> Result<String, Memory> {
    let mut out = String::new(alloc);
    let mut reader = ScriptReader::new(alloc);
    if script.len() > 1_000_000 || cut > script.len() {
        return Err(Memory);
    }
    let first = reader.feed(&script[..cut])?;
    for request in first.as_slice() {
        show(&mut out, request)?;
    }
    let second = reader.feed(&script[cut..])?;
    for request in second.as_slice() {
        show(&mut out, request)?;
    }
    if let Some(request) = reader.finish()? {
        show(&mut out, &request)?;
    }
    Ok(out)
}

#[test]
fn scripts_have_their_requests_wherever_they_are_cut(rt: HostRuntime) -> Result<(), Fail> {
    let cases = [
        ("", ""),
        ("\u{feff}", ""),
        (
            "edit 1 0\nrun x\nhello\n\n# note\nstop\n",
            "1 bad;2 bad;3 bad;6 stop;",
        ),
        ("\u{feff}edit 1 0 1\r\nалг\r\nrun", "1 edit 1 0 1;3 run 0;"),
        ("edit 1 0 2\nалг\n", "1 bad;"),
        ("edit 1 0 1\n", "1 bad;"),
        ("edit 1 0 1\n\n", "1 edit 1 0 1;"),
        ("edit 1 0 1\nалг", "1 edit 1 0 1;"),
        ("edit 1 0 0\nwait\n", "1 edit 1 0 0;2 wait;"),
        ("edit 1 0 8193\nstop\n", "1 bad;2 stop;"),
        (
            "edit 0000000001 0 0\nedit 1000000000 0 0\nedit 999999999 0 0\n",
            "1 bad;2 bad;3 edit 999999999 0 0;",
        ),
        (
            "edit  1 0 0\nedit 1 0 0 \nedit +1 0 0\nedit 1\t0 0\n",
            "1 bad;2 bad;3 bad;4 bad;",
        ),
        (
            "field 1\n3 1 1 1\nfield 0\nfield 65537\nfield 01\n",
            "1 field 1;3 bad;4 bad;5 bad;",
        ),
        (
            "run -5 да нет 2147483647\nrun -0\nrun 2147483648\nrun -2147483648\n",
            "1 run 4;2 bad;3 bad;4 run 1;",
        ),
        ("stop\r", "1 bad;"),
        ("stop \nstop\nstops\nSTOP\n", "1 bad;2 stop;3 bad;4 bad;"),
    ];
    for (script, wanted) in cases {
        for cut in 0..=script.len() {
            assert_eq!(rt; shown(rt.alloc(), script.as_bytes(), cut)?.as_str(), wanted);
        }
    }
    Ok(())
}

#[test]
fn lines_that_no_request_can_have_are_bad(rt: HostRuntime) -> Result<(), Fail> {
    let script = b"edit 1 0 2\n\xd0\xb0\n\xff\nwait\n\xff\n#\xff\n";
    assert_eq!(rt;
        shown(rt.alloc(), script, 7)?.as_str(),
        "1 bad;4 wait;5 bad;"
    );
    let mut long = Vec::new(rt.alloc());
    for line in [4_096usize, 4_097, 9_000] {
        for byte in b"edit 1 0 1\n" {
            long.push(*byte)?;
        }
        for _ in 0..line {
            long.push(b'x')?;
        }
        long.push(b'\r')?;
        long.push(b'\n')?;
    }
    long.push(b'#')?;
    for _ in 0..5_000 {
        long.push(b'x')?;
    }
    assert_eq!(rt;
        shown(rt.alloc(), &long, 5_000)?.as_str(),
        "1 edit 1 0 1;3 bad;5 bad;"
    );
    Ok(())
}
