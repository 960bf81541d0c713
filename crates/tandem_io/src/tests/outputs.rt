//! The standard output, over outputs that refuse some of their writes.

use crate::{Sink, StdoutSink, WriteFailed, write_all};
use std::cell::Cell;
use std::io::{self, ErrorKind, Print};

/// An output that takes at most so many bytes at a time, and refuses some of its writes, by an
/// error or by taking nothing. It counts its writes and the bytes that it took.
#[derive(Drop)]
struct Output {
    most: usize,
    refused: (u32, u32),
    by_error: bool,
    writes: Cell<u32>,
    taken: Cell<usize>,
}

/// An output of which the writes from one number to another are refused.
fn output_of(most: usize, refused: (u32, u32), by_error: bool) -> Output {
    Output {
        most,
        refused,
        by_error,
        writes: Cell::new(0),
        taken: Cell::new(0),
    }
}

impl Print for Output {
    fn print<D: std::fmt::Display + Drop>(&self, _value: D) -> io::Result<()> {
        Ok(())
    }

    fn println<D: std::fmt::Display + Drop>(&self, _value: D) -> io::Result<()> {
        Ok(())
    }

    fn write_all(&self, _bytes: &[u8]) -> io::Result<()> {
        Ok(())
    }

    fn write_some(&self, bytes: &[u8]) -> io::Result<usize> {
        self.writes.set(self.writes.get().saturating_add(1));
        if self.refused.0 <= self.writes.get() && self.writes.get() <= self.refused.1 {
            return if self.by_error {
                Err(io::Error::from(ErrorKind::StorageFull))
            } else {
                Ok(0)
            };
        }
        let n = bytes.len().min(self.most);
        self.taken.set(self.taken.get().saturating_add(n));
        Ok(n)
    }
}

/// Whether a line is written up to there, in so many writes and with so many bytes taken in all.
fn writes_line<K: Sink>(
    sink: &mut K,
    out: &Output,
    put: Option<u64>,
    writes: u32,
    taken: usize,
) -> bool {
    let want = match put {
        Some(put) => Err(WriteFailed { put }),
        None => Ok(()),
    };
    write_all(sink, b"a line\n") == want && out.writes.get() == writes && out.taken.get() == taken
}

/// Whether an output takes a line whole in so many writes.
fn takes_line(out: &Output, writes: u32) -> bool {
    writes_line(&mut StdoutSink::new(out), out, None, writes, 7)
}

#[test]
fn writes_to_an_output_in_pieces(rt: HostRuntime) {
    assert!(rt;
        takes_line(&output_of(3, (0, 0), false), 3),
        "three at a time"
    );
    assert!(rt;
        takes_line(&output_of(100, (0, 0), false), 1),
        "all at once"
    );
    assert!(rt; write_all(&mut StdoutSink::new(&rt), b"a line\n") == Ok(()));
}

/// Whether an output that refuses its second write takes three bytes of a line, and after that
/// failure a line whole.
fn fails_once_amid(out: &Output) -> bool {
    let mut sink = StdoutSink::new(out);
    writes_line(&mut sink, out, Some(3), 2, 3) && writes_line(&mut sink, out, None, 5, 10)
}

/// Whether an output that refuses its first two writes fails at each of them, and then takes a
/// line whole.
fn fails_twice_first(out: &Output) -> bool {
    let mut sink = StdoutSink::new(out);
    writes_line(&mut sink, out, Some(0), 1, 0)
        && writes_line(&mut sink, out, Some(0), 2, 0)
        && writes_line(&mut sink, out, None, 5, 7)
}

#[test]
fn tries_no_write_a_second_time(rt: HostRuntime) {
    for by_error in [true, false] {
        assert!(rt;
            fails_once_amid(&output_of(3, (2, 2), by_error)),
            "{by_error}"
        );
        assert!(rt;
            fails_twice_first(&output_of(3, (1, 2), by_error)),
            "{by_error}"
        );
    }
}
