//! A file that is read, and what its reads answered.

ghost use Rattle.std.specs.Prelude.{◌≡◌, false, is_err};
ghost use Rattle.std.specs.Io.{ReadsAtMost};
ghost use Rattle.std.specs.Io.KnownBytes.{ReadConsumes};
ghost use Rattle.tandem_io.specs.Causes.{faults_after};

use std::io::{self, Read};
use std::marker::Model;

/// A file that is read, whether its last read failed, and how many did.
#[derive(Drop)]
pub(super) struct Reader<F: Read> {
    file: F,
    failed: bool,
    errors: u64,
}

impl<F: Read> Model for Reader<F> {
    ghost use Rattle.tandem_io.specs.FileSlot.{FileView};

    ghost Value = { FileView };

    ghost view = { λ r. record { left = F.remaining r.file; failed = r.failed; errors = r.errors } };
}

impl<F: Read + Drop> Reader<F> {
    /// A file that was not read yet.
    pub(super) fn new(file: F) -> Reader<F>
        ensures { result ≡ record { left = F.remaining file; failed = false; errors = 0 } }
    {
        Reader {
            file,
            failed: false,
            errors: 0,
        }
    }

    /// Reads once, and keeps whether that failed.
    pub(super) fn read(&mut self, buf: &mut [u8]) -> io::Result<usize>
        ensures bound { ReadsAtMost result buf.new }
        ensures bytes { ReadConsumes self.old.left self.new.left result buf.new }
        ensures failed { self.new.failed ≡ is_err result }
        ensures errors { self.new.errors ≡ faults_after self.old.errors result }
    {
        let answer = self.file.read(buf);
        self.failed = answer.is_err();
        if self.failed {
            self.errors = self.errors.saturating_add(1);
        }
        answer
    }
}
