//! The source and the sink of a real stream.

ghost use Rattle.std.specs.Prelude.{◌≡◌, ◌<◌, ◌≤◌, None, length, IfOk};
ghost use Rattle.std.specs.Io.KnownBytes.{ReadConsumes, WriteAppends};
ghost use Rattle.km_ports.specs.Ports.{CountsTake, CountsPut};
ghost use Rattle.km_ports.specs.Outside.{reader_of, writer_of, source_state, sink_state};

use crate::port::{Failed, PutFault, Sink, Source};
use km_base::{Ledger, Steps};
use std::io::{Read, Write};

/// Names the calls on the outside that failed.
struct OutsideFaults;

impl Ledger for OutsideFaults {}

/// A source over a reader of std, which does not tell what is left. Each error of the reader is a fault.
#[derive(Drop)]
pub struct StdSource<R: Read> {
    inner: R,
    faults: Steps<OutsideFaults>,
}

impl<R: Read> StdSource<R> {
    /// No call failed.
    pub fn new(inner: R) -> StdSource<R>
        ensures reader { reader_of result ≡ inner }
        ensures state { ⟦<StdSource<R> as Source>⟧.state result ≡ record { left = None; faults = 0 } }
    {
        StdSource {
            inner,
            faults: Steps::new(),
        }
    }
}

impl<R: Read> Source for StdSource<R> {
    ghost state = { source_state };

    /// As every source, and what the reader tells.
    fn take(&mut self, piece: &mut [u8]) -> Result<usize, Failed>
        ensures within { IfOk result (λ count. count ≤ length piece.new) }
        ensures later { self.old.faults ≤ self.new.faults }
        ensures cause { CountsTake (source_state self.old) (source_state self.new) result }
        ensures reader { ReadConsumes (R.remaining (reader_of self.old)) (R.remaining (reader_of self.new)) result piece.new }
    {
        match self.inner.read(piece) {
            Ok(count) => Ok(count),
            Err(_) => {
                self.faults.tick();
                Err(Failed)
            }
        }
    }
}

/// A sink over a writer of std, which does not tell what was written. Each error of the writer is a fault, and so is
/// a write that takes nothing of a piece that is not empty. A writer that keeps bytes back is flushed by its owner.
#[derive(Drop)]
pub struct StdSink<W: Write> {
    inner: W,
    faults: Steps<OutsideFaults>,
}

impl<W: Write> StdSink<W> {
    /// No call failed.
    pub fn new(inner: W) -> StdSink<W>
        ensures writer { writer_of result ≡ inner }
        ensures state { ⟦<StdSink<W> as Sink>⟧.state result ≡ record { written = None; faults = 0 } }
    {
        StdSink {
            inner,
            faults: Steps::new(),
        }
    }
}

impl<W: Write> Sink for StdSink<W> {
    ghost state = { sink_state };

    /// As every sink, and what the writer tells.
    fn put(&mut self, piece: &[u8]) -> Result<usize, PutFault>
        ensures within { IfOk result (λ count. count ≤ length piece.now) }
        ensures some { IfOk result (λ count. 0 < length piece.now → 0 < count) }
        ensures later { self.old.faults ≤ self.new.faults }
        ensures cause { CountsPut (sink_state self.old) (sink_state self.new) result }
        ensures writer { WriteAppends (W.contents (writer_of self.old)) (W.contents (writer_of self.new)) result piece.now }
    {
        match self.inner.write(piece) {
            Ok(count) if 0 < count || piece.is_empty() => Ok(count),
            _ => {
                self.faults.tick();
                Err(PutFault::Failed)
            }
        }
    }
}
