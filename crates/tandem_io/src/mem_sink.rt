//! A sink in memory.

ghost use Rattle.std.specs.Prelude.{◌≡◌, ◌<◌, ◌≤◌, IfOk, OnOk, OnErr, is_err, length, Some, Ok};
ghost use Rattle.std.specs.Io.KnownBytes.{WriteAppends};
ghost use Rattle.tandem_io.specs.Causes.{HasCause};

use super::calls::Calls;
use super::sink::Sink;
use super::types::Failed;
use std::alloc::{AllocError, Global};
use std::marker::Model;

/// A sink in memory, which keeps what it took. Its writes take no memory: the room for them is
/// reserved when it is made, and a write that would pass it fails.
#[derive(Debug, Drop)]
pub struct MemSink {
    bytes: Vec<u8>,
    room: usize,
    step: usize,
    calls: Calls,
}

impl Model for MemSink {
    ghost use Rattle.std.specs.Prelude.{◌≤◌, length, vec_len, vec_capacity};
    ghost use Rattle.tandem_io.specs.MemSink.{MemSinkView};

    ghost Value = { MemSinkView };

    ghost view = { λ s. record { written = s.bytes.items; room = s.room; step = s.step; calls = s.calls } };

    ghost invariant = { λ s. (1 ≤ s.step) × (vec_len s.bytes ≤ s.room) × (s.room ≤ vec_capacity s.bytes) };
}

impl MemSink {
    ghost use Rattle.tandem_io.specs.Calls.{with_failing};
    ghost use Rattle.tandem_io.specs.MemSink.{empty_sink};

    /// A sink with room for `room` bytes, which takes at most `step` in a write.
    pub fn new(alloc: Global, room: usize, step: usize) -> Result<MemSink, AllocError>
        requires { 1 ≤ step }
        ensures { IfOk result (λ sink. sink ≡ empty_sink room step) }
    {
        Ok(MemSink {
            bytes: Vec::with_capacity(alloc, room)?,
            room,
            step,
            calls: Calls::new(alloc),
        })
    }

    /// The bytes that it took.
    pub fn bytes(&self) -> &[u8]
        ensures { result.now ≡ self.now.written }
    {
        self.bytes.as_slice()
    }

    /// Has the write of this number fail. Writes are numbered from 1, and each one after number
    /// 2^64 - 1 has that number again.
    pub fn fail_at(&mut self, call: u64) -> Result<(), AllocError>
        ensures ok { OnOk result (self.new ≡ record self.old { calls = with_failing self.old.calls call }) }
        ensures err { OnErr result (self.new ≡ self.old) }
    {
        self.calls.fail_at(call)
    }
}

impl Sink for MemSink {
    ghost use Rattle.tandem_io.specs.MemSink.{write_step, write_fails, after_write};

    ghost written = { λ s. Some s.written };

    ghost faults = { λ s. s.calls.faults };

    /// Takes as many bytes as it can, and at most `step`.
    fn write(&mut self, buf: &[u8]) -> Result<usize, Failed>
        requires { 0 < length buf.now }
        ensures least { IfOk result (λ n. 0 < n) }
        ensures most { IfOk result (λ n. n ≤ length buf.now) }
        ensures bytes { WriteAppends (Some self.old.written) (Some self.new.written) result buf.now }
        ensures cause { HasCause self.old.calls.faults self.new.calls.faults result }
        ensures count { self.old.calls.faults ≤ self.new.calls.faults }
        ensures fails { is_err result ≡ write_fails self.old buf.now }
        ensures taken { IfOk result (λ n. n ≡ write_step self.old buf.now) }
        ensures after { self.new ≡ after_write self.old buf.now }
    {
        let n = self.step.min(buf.len());
        let fails = self.calls.next_fails() || self.room - self.bytes.len() < n;
        self.calls.count(fails);
        if fails {
            return Err(Failed);
        }
        match self.bytes.extend_from_slice(&buf[..n]) {
            Ok(()) => Ok(n),
            Err(AllocError) => unreachable!(),
        }
    }
}
