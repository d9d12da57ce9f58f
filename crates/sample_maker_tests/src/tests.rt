use km_ports::{MemSink, VecSink};
use sample_maker::{make, sample_text};
use std::alloc::{AllocError, Global};
use std::test::Fail;

// What is written for a number, and the status.
fn written(alloc: Global, number: u32) -> Result<String, AllocError> {
    let mut sink = VecSink::new(alloc);
    let status = sample_text(alloc, number, &mut sink);
    let text = String::from_utf8_lossy(alloc, sink.written())?;
    format!(in alloc; "{text}{}", status.number())
}

// Numbers with what is written for them. Their outputs were computed outside the program.
const SUMMARIES: [(u32, &str); 3] = [
    (
        0,
        "sample 0\nalgorithms 21\nversions 21\nfaults 0\nout 212\n0",
    ),
    (
        199,
        "sample 199\nalgorithms 220\nversions 220\nfaults 0\nout 899\n0",
    ),
    (
        4_294_967_295,
        "sample 4294967295\nalgorithms 116\nversions 116\nfaults 0\nout 907\n0",
    ),
];

#[test]
fn summaries_are_written(rt: HostRuntime) -> Result<(), Fail> {
    for (number, wanted) in SUMMARIES {
        let told = written(rt.alloc(), number)?;
        assert_eq!(rt; told.as_str(), wanted, "at {number}");
    }
    Ok(())
}

// How the sample of a number begins and ends.
const SAMPLES: [(u32, &str, &str); 2] = [
    (
        0,
        "edit 1 0 106\nалг главная\nнач\nцел s\ns := 0\ns := f_1(s)\ns := f_2(s)\n",
        "edit 105 1 1\nзнач := mod(x * 8 + 20, 1000)\nrun\n",
    ),
    (
        4_294_967_295,
        "edit 1 0 581\nалг главная\nнач\nцел s\ns := 295\ns := f_1(s)\n",
        "edit 580 1 1\nзнач := mod(x * 8 + 115, 1000)\nrun\n",
    ),
];

// Whether the sample of a number begins and ends so.
fn is_sample(alloc: Global, number: u32, begin: &str, end: &str) -> bool {
    match make(alloc, number) {
        Ok(text) => text.as_str().starts_with(begin) && text.as_str().ends_with(end),
        Err(_) => false,
    }
}

#[test]
fn samples_begin_and_end_so(rt: HostRuntime) -> Result<(), Fail> {
    for (number, begin, end) in SAMPLES {
        assert!(rt; is_sample(rt.alloc(), number, begin, end), "at {number}");
    }
    Ok(())
}

#[test]
fn second_put_fails(rt: HostRuntime) -> Result<(), Fail> {
    let alloc = rt.alloc();
    let mut sink = MemSink::new(alloc, 4, vec![in alloc; 2]?);
    let status = sample_text(alloc, 0, &mut sink);
    assert_eq!(rt; status.number(), 4);
    assert_eq!(rt; sink.written(), "samp".as_bytes());
    Ok(())
}
