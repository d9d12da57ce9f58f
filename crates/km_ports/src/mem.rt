//! A source and a sink in memory that move few bytes at a time and fail where they are told to.

ghost use Rattle.std.specs.Prelude.{◌≡◌, ◌<◌, ◌≤◌, ◌↔◌, [], Some, List, ℕ, length, min, take, IfOk, IsErrOf, OnErr, IsErr, is_err, Err};
ghost use Rattle.std.specs.Io.KnownBytes.{IsAtEnd};
ghost use Rattle.km_ports.specs.Calls.{no_calls, after_call, FailsNext, source_state, sink_state};
ghost use Rattle.km_ports.specs.Ports.{TakesFrom, PutsInto, CountsTake, CountsPut, put_failed};

use crate::calls::CallLog;
use crate::feed::Feed;
use crate::port::{Failed, PutFault, Sink, Source};
use std::alloc::Global;
use std::marker::Model;

/// A source of the bytes that it was made with. Contracts see the bytes that are left, and the calls.
#[derive(Drop)]
pub struct MemSource {
    feed: Feed,
    calls: CallLog,
}

impl Model for MemSource {
    ghost use Rattle.km_ports.specs.Calls.{SourceInMemory};

    ghost Value = { SourceInMemory };

    ghost view = { λ s. record { left = s.feed; calls = s.calls } };
}

impl MemSource {
    /// Gives at most `most` bytes per call. The calls whose numbers from 1 stand in `fails` fail and raise the count.
    /// After call 2^64 - 1 no further call fails.
    pub fn new(bytes: Vec<u8>, most: usize, fails: Vec<u64>) -> MemSource
        requires { 1 ≤ most }
        ensures left { result.left ≡ bytes.items }
        ensures calls { result.calls ≡ no_calls most fails.items }
    {
        MemSource {
            feed: Feed::new(bytes),
            calls: CallLog::new(most, fails),
        }
    }
}

impl Source for MemSource {
    ghost state = { source_state };

    /// As every source, and exactly as `new` says.
    fn take(&mut self, piece: &mut [u8]) -> Result<usize, Failed>
        ensures within { IfOk result (λ count. count ≤ length piece.new) }
        ensures bytes { IfOk result (λ count. TakesFrom (source_state self.old) (source_state self.new) (take count piece.new)) }
        ensures end { IfOk result (λ count. count ≡ 0 → 0 < length piece.new → IsAtEnd (Some self.old.left)) }
        ensures unchanged { OnErr result (Some self.new.left ≡ Some self.old.left) }
        ensures later { self.old.calls.failed ≤ self.new.calls.failed }
        ensures cause { CountsTake (source_state self.old) (source_state self.new) result }

        ensures fails { IsErr result ↔ FailsNext self.old.calls }
        ensures calls { self.new.calls ≡ after_call self.old.calls (is_err result) }
        ensures count { IfOk result (λ count. count ≡ min self.old.calls.most (min (length piece.new) (length self.old.left))) }
    {
        if self.calls.next_fails() {
            return Err(Failed);
        }
        let most = self.calls.most();
        Ok(self.feed.give(most, piece))
    }
}

/// A sink that keeps what it is given. Contracts see those bytes, and the calls.
#[derive(Drop)]
pub struct MemSink {
    bytes: Vec<u8>,
    calls: CallLog,
}

impl Model for MemSink {
    ghost use Rattle.km_ports.specs.Calls.{SinkInMemory};

    ghost Value = { SinkInMemory };

    ghost view = { λ s. record { written = s.bytes.items; calls = s.calls } };
}

impl MemSink {
    /// Takes at most `most` bytes per call. The calls whose numbers from 1 stand in `fails` fail and raise the count.
    /// After call 2^64 - 1 no further call fails.
    pub fn new(alloc: Global, most: usize, fails: Vec<u64>) -> MemSink
        requires { 1 ≤ most }
        ensures written { result.written ≡ [] }
        ensures calls { result.calls ≡ no_calls most fails.items }
    {
        MemSink {
            bytes: Vec::new(alloc),
            calls: CallLog::new(most, fails),
        }
    }

    /// What was written.
    pub fn written(&self) -> &[u8]
        ensures { result.now ≡ self.now.written }
    {
        &self.bytes
    }
}

impl Sink for MemSink {
    ghost state = { sink_state };

    /// As every sink, and exactly as `new` says. A call that wants memory counts as a call.
    fn put(&mut self, piece: &[u8]) -> Result<usize, PutFault>
        ensures within { IfOk result (λ count. count ≤ length piece.now) }
        ensures some { IfOk result (λ count. 0 < length piece.now → 0 < count) }
        ensures bytes { IfOk result (λ count. PutsInto (sink_state self.old) (sink_state self.new) (take count piece.now)) }
        ensures unchanged { OnErr result (Some self.new.written ≡ Some self.old.written) }
        ensures later { self.old.calls.failed ≤ self.new.calls.failed }
        ensures cause { CountsPut (sink_state self.old) (sink_state self.new) result }

        ensures fails { IsErrOf result PutFault.Failed ↔ FailsNext self.old.calls }
        ensures calls { self.new.calls ≡ after_call self.old.calls (put_failed result) }
        ensures count { IfOk result (λ count. count ≡ min self.old.calls.most (length piece.now)) }
    {
        if self.calls.next_fails() {
            return Err(PutFault::Failed);
        }
        let count = self.calls.most().min(piece.len());
        self.bytes.extend_from_slice(&piece[..count])?;
        Ok(count)
    }
}
