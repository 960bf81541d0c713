//! The standard output as a sink.

ghost use Rattle.std.specs.Prelude.{◌≡◌, None};

use super::writer_sink::WriterSink;
use std::io::{self, Printer};

/// The standard output of the runtime as a sink, of which nothing is told.
pub type StdoutSink<'a, P> = WriterSink<Printer<'a, P>>;

impl<'a, P: Print> WriterSink<Printer<'a, P>> {
    ghost use Rattle.tandem_io.specs.WriterSink.{new_sink};

    /// A sink without a fault yet.
    pub fn new(rt: &'a P) -> StdoutSink<'a, P>
        ensures { result ≡ new_sink None }
    {
        WriterSink::over(io::writer(rt))
    }
}
