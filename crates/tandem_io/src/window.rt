//! A piece of a file that was read and is given on little by little.

ghost use Rattle.std.specs.Prelude.{◌≡◌, ◌+◌, ◌-◌, ◌<◌, ◌≤◌, [], ◌++◌, length, min, nat_eq, take, drop};
ghost use Rattle.std.specs.Prelude.{IfOk, OnOk, OnErr, is_err};
ghost use Rattle.std.specs.Io.{ReadsAtMost};
ghost use Rattle.std.specs.Io.KnownBytes.{Consumes, IsAtEnd, Keeps};
ghost use Rattle.tandem_io.specs.Causes.{faults_after};

use super::reader::Reader;
use std::io::{self, Read};

/// How many bytes of a file are asked for at a time: 64 KiB.
const WINDOW_BYTES: usize = 65_536;

/// A piece of a file, of which `bytes[start..end]` is not yet given on.
#[derive(Drop)]
pub(super) struct Window {
    bytes: [u8; WINDOW_BYTES],
    start: usize,
    end: usize,
    ghost ordered: { start ≤ end },
    ghost in_bounds: { end ≤ 65536 },
}

impl Window {
    ghost use Rattle.tandem_io.specs.Window.{unread_in};

    /// A window of no bytes.
    pub(super) fn new() -> Window
        ensures { unread_in result ≡ [] }
    {
        Window {
            bytes: [0; WINDOW_BYTES],
            start: 0,
            end: 0,
        }
    }

    /// Whether all that was read is given on.
    pub(super) fn is_empty(&self) -> bool
        ensures { result ≡ nat_eq (length (unread_in self.now)) 0 }
    {
        self.start == self.end
    }

    /// Drops what was not given on.
    pub(super) fn clear(&mut self)
        ensures { unread_in self.new ≡ [] }
    {
        self.start = 0;
        self.end = 0;
    }

    /// Reads the next piece in place of what was not given on. Where the read fails, the window is
    /// empty.
    pub(super) fn fill<F: Read + Drop>(&mut self, file: &mut Reader<F>) -> io::Result<()>
        ensures ok { OnOk result (Consumes file.old.left file.new.left (unread_in self.new)) }
        ensures end { OnOk result (unread_in self.new ≡ [] → IsAtEnd file.new.left) }
        ensures err { OnErr result (Keeps file.old.left file.new.left) }
        ensures empty { OnErr result (unread_in self.new ≡ []) }
        ensures failed { file.new.failed ≡ is_err result }
        ensures errors { file.new.errors ≡ faults_after file.old.errors result }
    {
        self.start = 0;
        self.end = 0;
        self.end = read_piece(file, &mut self.bytes)?;
        Ok(())
    }

    /// What was not given on yet.
    pub(super) fn unread(&self) -> &[u8]
        ensures { result.now ≡ unread_in self.now }
    {
        &self.bytes[self.start..self.end]
    }

    /// Gives on the first `n` of those bytes.
    pub(super) fn skip(&mut self, n: usize)
        requires { n ≤ length (unread_in self.old) }
        ensures { unread_in self.new ≡ drop n (unread_in self.old) }
    {
        self.start += n;
    }

    /// Gives on as many bytes as it can, the first of those that were not given on, and answers how
    /// many.
    pub(super) fn give(&mut self, buf: &mut [u8]) -> usize
        ensures count { result ≡ min (length buf.old) (length (unread_in self.old)) }
        ensures given { take result buf.new ≡ take result (unread_in self.old) }
        ensures beyond { drop result buf.new ≡ drop result buf.old }
        ensures rest { unread_in self.new ≡ drop result (unread_in self.old) }
    {
        let bytes = self.unread();
        let n = buf.len().min(bytes.len());
        buf[..n].copy_from_slice(&bytes[..n]);
        self.skip(n);
        n
    }
}

fn read_piece<F: Read + Drop>(
    file: &mut Reader<F>,
    bytes: &mut [u8; WINDOW_BYTES],
) -> io::Result<usize>
    ensures within { ReadsAtMost result bytes.new }
    ensures most { IfOk result (λ n. n ≤ 65536) }
    ensures ok { IfOk result (λ n. Consumes file.old.left file.new.left (take n bytes.new)) }
    ensures end { IfOk result (λ n. n ≡ 0 → IsAtEnd file.new.left) }
    ensures err { OnErr result (Keeps file.old.left file.new.left) }
    ensures failed { file.new.failed ≡ is_err result }
    ensures errors { file.new.errors ≡ faults_after file.old.errors result }
{
    file.read(&mut bytes[..])
}
