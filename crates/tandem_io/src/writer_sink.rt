//! A writer as a sink.

ghost use Rattle.std.specs.Prelude.{◌≡◌, ◌<◌, ◌≤◌, length, not, false, IfOk, is_err};
ghost use Rattle.std.specs.Io.{WritesAtMost};
ghost use Rattle.std.specs.Io.KnownBytes.{WriteAppends};
ghost use Rattle.tandem_io.specs.Causes.{HasCause, Rose, faults_after};
ghost use Rattle.tandem_io.specs.WriterSink.{took_some, errors_after};

use super::sink::Sink;
use super::types::Failed;
use std::io::{self, Write};
use std::marker::Model;

/// A writer, whether its last write was an error, and how many of its writes were. A write that took
/// no byte is an error too.
#[derive(Drop)]
struct CountedWriter<W: Write> {
    to: W,
    failed: bool,
    errors: u64,
}

impl<W: Write> Model for CountedWriter<W> {
    ghost use Rattle.tandem_io.specs.WriterSink.{WriterView};

    ghost Value = { WriterView };

    ghost view = { λ w. record { written = W.contents w.to; failed = w.failed; errors = w.errors } };
}

impl<W: Write + Drop> CountedWriter<W> {
    /// Writes once, and keeps whether that was an error.
    fn write(&mut self, buf: &[u8]) -> io::Result<usize>
        ensures bound { WritesAtMost result buf.now }
        ensures bytes { WriteAppends self.old.written self.new.written result buf.now }
        ensures failed { self.new.failed ≡ not (took_some result) }
        ensures errors { self.new.errors ≡ errors_after self.old.errors result }
        ensures cause { took_some result ≡ false → Rose self.old.errors self.new.errors }
        ensures count { self.old.errors ≤ self.new.errors }
    {
        let answer = self.to.write(buf);
        self.failed = !matches!(answer, Ok(n) if n > 0);
        if self.failed {
            self.errors = self.errors.saturating_add(1);
        }
        answer
    }
}

/// A writer as a sink, which tells what the writer tells. Each error of a write is a fault, and so
/// is a write that took no byte.
#[derive(Drop)]
pub struct WriterSink<W: Write> {
    out: CountedWriter<W>,
}

impl<W: Write> Model for WriterSink<W> {
    ghost use Rattle.tandem_io.specs.WriterSink.{WriterSinkView};

    ghost Value = { WriterSinkView };

    ghost view = { λ s. record { written = s.out.written; failed = s.out.failed; faults = s.out.errors } };
}

impl<W: Write + Drop> WriterSink<W> {
    ghost use Rattle.tandem_io.specs.WriterSink.{new_sink};

    /// A sink without a fault yet.
    pub(super) fn over(to: W) -> WriterSink<W>
        ensures { result ≡ new_sink (W.contents to) }
    {
        let out = CountedWriter {
            to,
            failed: false,
            errors: 0,
        };
        WriterSink { out }
    }
}

impl<W: Write + Drop> Sink for WriterSink<W> {
    ghost written = { λ s. s.written };

    ghost faults = { λ s. s.faults };

    /// Fails exactly where the writer failed or took no byte.
    fn write(&mut self, buf: &[u8]) -> Result<usize, Failed>
        requires { 0 < length buf.now }
        ensures least { IfOk result (λ n. 0 < n) }
        ensures most { IfOk result (λ n. n ≤ length buf.now) }
        ensures bytes { WriteAppends self.old.written self.new.written result buf.now }
        ensures cause { HasCause self.old.faults self.new.faults result }
        ensures count { self.old.faults ≤ self.new.faults }
        ensures failed { is_err result ≡ self.new.failed }
        ensures faults { self.new.faults ≡ faults_after self.old.faults result }
    {
        match self.out.write(buf) {
            Ok(n) if n > 0 => Ok(n),
            _ => Err(Failed),
        }
    }
}
