ghost use Rattle.std.specs.Prelude.{◌≡◌, ◌<◌, ◌≤◌, ◌++◌, ◌⊎◌, List, ℕ, Some, [], length, Ok, Err};
ghost use Rattle.km_ports.specs.Ports.{Rose};
ghost use Rattle.km_ports.specs.declared.status.Status.TheVariants.{Read, Write, Memory, TooLong};
ghost use Rattle.km_ports.specs.declared.status.Excess.TheVariants.{Bytes};

use km_ports::{
    Excess, MemSink, MemSource, Sink, Source, Status, StdSink, StdSource, SureSource, VecSink,
    put_all, read_within,
};
use std::alloc::{AllocError, Global};
use std::io;
use std::test::Fail;

/// Copies a whole input, as a command does.
fn copy<I: Source, O: Sink>(
    alloc: Global,
    input: &mut I,
    output: &mut O,
    most: usize,
) -> Result<(), Status>
    ensures read { result ≡ Err Read → Rose (I.state input.old).faults (I.state input.new).faults }
    ensures write { result ≡ Err Write → Rose (O.state output.old).faults (O.state output.new).faults }
    ensures long { (left : List ℕ) → result ≡ Err (TooLong Bytes) → (I.state input.old).left ≡ Some left → most < length left }
{
    let bytes = read_within(alloc, input, most)?;
    put_all(output, &bytes)?;
    Ok(())
}

/// The number of the status that a copy ends with.
fn number_of(copied: Result<(), Status>) -> u8 {
    match copied {
        Ok(()) => Status::Fine.number(),
        Err(status) => status.number(),
    }
}

/// A reader and a writer that only fail.
#[derive(Drop)]
struct Broken;

impl io::Read for Broken {
    fn read(&mut self, _buf: &mut [u8]) -> io::Result<usize> {
        Err(io::Error::from_raw_os_error(5))
    }
}

impl io::Write for Broken {
    fn write(&mut self, _buf: &[u8]) -> io::Result<usize> {
        Err(io::Error::from_raw_os_error(5))
    }

    fn flush(&mut self) -> io::Result<()> {
        Ok(())
    }
}

/// A writer that takes nothing.
#[derive(Drop)]
struct Stuck;

impl io::Write for Stuck {
    fn write(&mut self, _buf: &[u8]) -> io::Result<usize> {
        Ok(0)
    }

    fn flush(&mut self) -> io::Result<()> {
        Ok(())
    }
}

fn may_be_sent<T: Send>() {}

#[test]
fn ports_may_be_sent() {
    may_be_sent::<MemSource>();
    may_be_sent::<SureSource>();
    may_be_sent::<StdSource<&[u8]>>();
    may_be_sent::<MemSink>();
    may_be_sent::<VecSink>();
    may_be_sent::<StdSink<Vec<u8>>>();
}

#[test]
fn numbers_of_statuses(rt: HostRuntime) {
    let in_order = [
        Status::Fine,
        Status::Faults,
        Status::Words,
        Status::Read,
        Status::Write,
        Status::Memory,
        Status::NotUtf8 { place: 3 },
        Status::TooLong(Excess::Lines),
    ];
    for (number, status) in in_order.iter().enumerate() {
        assert_eq!(rt; usize::from(status.number()), number);
    }
}

/// How many bytes one take gives, and 99 where it fails.
fn taken<I: Source>(source: &mut I) -> usize {
    let mut piece = [0; 12];
    source.take(&mut piece).unwrap_or(99)
}

/// How many bytes one put takes, and 99 where it fails.
fn put<O: Sink>(sink: &mut O, piece: &[u8]) -> usize {
    sink.put(piece).unwrap_or(99)
}

#[test]
fn third_take_fails(rt: HostRuntime) -> Result<(), Fail> {
    let alloc = rt.alloc();
    let mut source = MemSource::new(
        b"0123456789abcdefghij".to_vec(alloc)?,
        8,
        [3].to_vec(alloc)?,
    );
    for count in [8, 8, 99, 4, 0] {
        assert_eq!(rt; taken(&mut source), count);
    }
    Ok(())
}

#[test]
fn first_put_fails(rt: HostRuntime) -> Result<(), Fail> {
    let alloc = rt.alloc();
    let mut sink = MemSink::new(alloc, 5, [1].to_vec(alloc)?);
    for count in [99, 5, 5] {
        assert_eq!(rt; put(&mut sink, b"abcdefgh"), count);
    }
    assert_eq!(rt; put(&mut sink, b""), 0);
    assert_eq!(rt; sink.written(), b"abcdeabcde".as_slice());
    Ok(())
}

#[test]
fn copies_in_pieces(rt: HostRuntime) -> Result<(), Fail> {
    let alloc = rt.alloc();
    let mut source = MemSource::new(b"abcdefghij".to_vec(alloc)?, 4, Vec::new(alloc));
    let mut sink = MemSink::new(alloc, 3, Vec::new(alloc));
    assert_eq!(rt; number_of(copy(alloc, &mut source, &mut sink, 10)), 0);
    assert_eq!(rt; sink.written(), b"abcdefghij".as_slice());
    Ok(())
}

#[test]
fn copies_at_once(rt: HostRuntime) -> Result<(), Fail> {
    let alloc = rt.alloc();
    let mut source = SureSource::new(b"abcdefghij".to_vec(alloc)?);
    let mut sink = VecSink::new(alloc);
    assert_eq!(rt; number_of(copy(alloc, &mut source, &mut sink, 10)), 0);
    assert_eq!(rt; sink.written(), b"abcdefghij".as_slice());
    Ok(())
}

#[test]
fn copies_streams(rt: HostRuntime) {
    let alloc = rt.alloc();
    let mut source = StdSource::new(b"abcdefghij".as_slice());
    let mut sink = StdSink::new(Vec::new(alloc));
    assert_eq!(rt; number_of(copy(alloc, &mut source, &mut sink, 10)), 0);
}

/// The status of reading so many bytes within a limit.
fn status_of(alloc: Global, length: usize, most: usize) -> Result<u8, AllocError> {
    let mut source = SureSource::new(vec![in alloc; 7; length]?);
    Ok(number_of(copy(alloc, &mut source, &mut VecSink::new(alloc), most)))
}

#[test]
fn limits_of_reading(rt: HostRuntime) -> Result<(), Fail> {
    for (length, most, status) in [
        (0, 0, 0),
        (1, 0, 7),
        (4_096, 4_096, 0),
        (4_097, 4_096, 7),
        (9_000, 9_000, 0),
        (9_000, 8_999, 7),
        (9_000, usize::MAX, 0),
    ] {
        assert_eq!(rt;
            status_of(rt.alloc(), length, most)?,
            status,
            "{length} {most}"
        );
    }
    Ok(())
}

#[test]
fn faults_of_the_outside(rt: HostRuntime) {
    assert_eq!(rt; taken(&mut StdSource::new(Broken)), 99);
    assert_eq!(rt; put(&mut StdSink::new(Broken), b"a"), 99);
    let mut stuck = StdSink::new(Stuck);
    assert_eq!(rt; put(&mut stuck, b"a"), 99);
    assert_eq!(rt; put(&mut stuck, b""), 0);
}

#[test]
fn statuses_of_faults(rt: HostRuntime) {
    let alloc = rt.alloc();
    let mut source = StdSource::new(Broken);
    assert_eq!(rt;
        number_of(copy(alloc, &mut source, &mut VecSink::new(alloc), 10)),
        3
    );
    let mut source = StdSource::new(b"abc".as_slice());
    assert_eq!(rt;
        number_of(copy(alloc, &mut source, &mut StdSink::new(Stuck), 10)),
        4
    );
}
