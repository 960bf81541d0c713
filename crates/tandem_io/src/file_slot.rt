//! One slot of the inputs that are files.

ghost use Rattle.std.specs.Prelude.{◌≡◌, ◌<◌, ◌≤◌, ◌↔◌, [], ◌&&◌, true, false, length, drop, take, nat_eq};
ghost use Rattle.std.specs.Prelude.{OnOk, OnErr, IfOk, IsOk, IsErrAnd, is_err, Ok, None};
ghost use Rattle.std.specs.IoError.{error_kind};
ghost use Rattle.std.specs.Io.{ReadsAtMost};
ghost use Rattle.std.specs.Io.KnownBytes.{Consumes, IsAtEnd, Keeps, ReadConsumes};
ghost use Rattle.tandem_io.specs.Causes.{HasCause, answered_end, faults_after};
ghost use Rattle.tandem_io.specs.FileSlot.{left_of, left_in, failed_in, errors_in, GivesLent};
ghost use Rattle.tandem_io.specs.Told.{BeginsWith};
ghost use Rattle.tandem_io.specs.Window.{unread_in};

use super::reader::Reader;
use super::types::Failed;
use super::window::Window;
use std::io::{self, ErrorKind, Read};
use std::marker::Model;

/// One slot of the inputs that read files: what is open, what was read of it and is not yet given
/// on, and what its calls answered.
#[derive(Drop)]
pub(super) struct FileSlot<F: Read> {
    file: Option<Reader<F>>,
    window: Window,
    ended: bool,
    attached: Option<bool>,
    faults: u64,
}

impl<F: Read> Model for FileSlot<F> {
    ghost use Rattle.tandem_io.specs.FileSlot.{FileSlotView, IsSoundSlot, left_of, failed_in, errors_in};
    ghost use Rattle.tandem_io.specs.Window.{unread_in};

    ghost Value = { FileSlotView };

    ghost view = { λ s. record {
      told = record { left = left_of s.file s.window; ended = s.ended; attached = s.attached; faults = s.faults };
      lent = unread_in s.window;
      failed = failed_in s.file;
      errors = errors_in s.file;
    } };

    ghost invariant = { λ s. IsSoundSlot s.attached s.file s.window };
}

impl<F: Read + Drop> FileSlot<F> {
    ghost use Rattle.tandem_io.specs.FileSlot.{no_file, after_attaching};

    /// A slot before its first attach.
    pub(super) fn new() -> FileSlot<F>
        ensures { result ≡ no_file }
    {
        FileSlot {
            file: None,
            window: Window::new(),
            ended: false,
            attached: None,
            faults: 0,
        }
    }

    /// Takes what opening a file answered: false is for no such file, and each other error is a fault.
    pub(super) fn attach(&mut self, opened: io::Result<F>) -> Result<bool, Failed>
        ensures found { result ≡ Ok true ↔ IsOk opened }
        ensures missing { result ≡ Ok false ↔ IsErrAnd opened (λ e. error_kind e ≡ ErrorKind.NotFound) }
        ensures left { IfOk opened (λ file. self.new.told.left ≡ F.remaining file) }
        ensures after { self.new ≡ after_attaching self.old self.new.told.left result }
        ensures faults { self.new.told.faults ≡ faults_after self.old.told.faults result }
        ensures cause { HasCause self.old.told.faults self.new.told.faults result }
        ensures count { self.old.told.faults ≤ self.new.told.faults }
    {
        match opened {
            Ok(file) => {
                self.file = Some(Reader::new(file));
                self.window.clear();
                self.attached = Some(true);
                Ok(true)
            }
            Err(error) if error.kind() == ErrorKind::NotFound => {
                self.attached = Some(false);
                Ok(false)
            }
            Err(_) => {
                self.faults = self.faults.saturating_add(1);
                Err(Failed)
            }
        }
    }

    /// Gives on what was read of the file, and reads on in it where nothing is left of that. It
    /// fails exactly where that fails.
    pub(super) fn read(&mut self, buf: &mut [u8]) -> Result<usize, Failed>
        requires { 0 < length buf.old }
        ensures bound { ReadsAtMost result buf.new }
        ensures bytes { ReadConsumes self.old.told.left self.new.told.left result buf.new }
        ensures empty { self.old.told.attached ≡ None → IfOk result (λ n. n ≡ 0) }
        ensures ended { self.new.told.ended ≡ answered_end result }
        ensures attached { self.new.told.attached ≡ self.old.told.attached }
        ensures cause { HasCause self.old.told.faults self.new.told.faults result }
        ensures count { self.old.told.faults ≤ self.new.told.faults }
        ensures failed { is_err result ≡ self.new.failed }
        ensures errors { self.new.errors ≡ faults_after self.old.errors result }
        ensures faults { self.new.told.faults ≡ faults_after self.old.told.faults result }
        ensures waiting { 0 < length self.old.lent → GivesLent self.old.lent self.new.lent result buf.new }
    {
        match read_on(&mut self.file, &mut self.window) {
            Ok(()) => {
                let n = self.window.give(buf);
                self.ended = n == 0;
                Ok(n)
            }
            Err(_) => {
                self.faults = self.faults.saturating_add(1);
                self.ended = false;
                Err(Failed)
            }
        }
    }

    /// What was read of the file and is not yet given on.
    pub(super) fn ready(&self) -> &[u8]
        ensures lent { result.now ≡ self.now.lent }
        ensures front { BeginsWith self.now.told.left result.now }
        ensures empty { self.now.told.attached ≡ None → result.now ≡ [] }
    {
        self.window.unread()
    }

    /// Gives on the first `n` of those bytes.
    pub(super) fn skip(&mut self, n: usize)
        requires { n ≤ length self.old.lent }
        ensures bytes { Consumes self.old.told.left self.new.told.left (take n self.old.lent) }
        ensures rest { self.new.lent ≡ drop n self.old.lent }
        ensures ended { self.new.told.ended ≡ (self.old.told.ended && nat_eq n 0) }
        ensures attached { self.new.told.attached ≡ self.old.told.attached }
        ensures faults { self.new.told.faults ≡ self.old.told.faults }
        ensures failed { self.new.failed ≡ self.old.failed }
        ensures errors { self.new.errors ≡ self.old.errors }
    {
        self.window.skip(n);
        self.ended &= n == 0;
    }
}

/// Reads the next piece of the file, if one is open and nothing is left of the last.
fn read_on<F: Read + Drop>(file: &mut Option<Reader<F>>, window: &mut Window) -> io::Result<()>
    requires { failed_in file.old ≡ true → unread_in window.old ≡ [] }
    ensures left { Keeps (left_of file.old window.old) (left_of file.new window.new) }
    ensures end { OnOk result (unread_in window.new ≡ [] → IsAtEnd (left_in file.new)) }
    ensures file { file.old ≡ None → file.new ≡ None }
    ensures window { file.old ≡ None → unread_in window.new ≡ unread_in window.old }
    ensures failed { failed_in file.new ≡ is_err result }
    ensures errors { errors_in file.new ≡ faults_after (errors_in file.old) result }
    ensures drained { OnErr result (unread_in window.new ≡ []) }
    ensures waiting { 0 < length (unread_in window.old) → IsOk result × (unread_in window.new ≡ unread_in window.old) }
{
    match file {
        Some(file) if window.is_empty() => window.fill(file),
        _ => Ok(()),
    }
}
