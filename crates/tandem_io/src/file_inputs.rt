//! Inputs that are files.

ghost use Rattle.std.specs.Prelude.{◌≡◌, ◌<◌, ◌≤◌, ◌&&◌, length, nat_eq, drop, take, IfOk, is_err, false, None};
ghost use Rattle.std.specs.Io.{ReadsAtMost};
ghost use Rattle.std.specs.Io.KnownBytes.{Consumes, ReadConsumes};
ghost use Rattle.tandem_io.specs.Causes.{HasCause, answered_end, faults_after};

use super::file_slot::FileSlot;
use super::source::{Inputs, Source};
use super::types::{Failed, Slot};
use std::fs;
use std::marker::Model;
use std::rt::Files;

/// Inputs that are the files of the runtime. It reads 64 KiB of a file at a time, whatever its
/// callers ask for, and takes no memory.
///
/// It tells no names, and of contents what the files of the runtime tell: files of the system tell
/// nothing. Attaching answers false where opening says that no such file is there, and each other
/// error is a fault.
#[derive(Drop)]
pub struct FileInputs<'a, R: Files> {
    rt: &'a R,
    image: FileSlot<R::File>,
    stream: FileSlot<R::File>,
}

impl<'a, R: Files> Model for FileInputs<'a, R> {
    ghost use Rattle.tandem_io.specs.FileSlot.{FileSlots};

    ghost Value = { FileSlots };

    ghost view = { λ f. record { image = f.image; stream = f.stream } };
}

impl<'a, R: Files> FileInputs<'a, R> {
    ghost use Rattle.tandem_io.specs.FileSlot.{no_files};

    /// Inputs of which no file is open yet.
    pub fn new(rt: &'a R) -> FileInputs<'a, R>
        ensures { result ≡ no_files }
    {
        FileInputs {
            rt,
            image: FileSlot::new(),
            stream: FileSlot::new(),
        }
    }
}

impl<R: Files> Source for FileInputs<'_, R> {
    ghost use Rattle.std.specs.Prelude.{is_some};
    ghost use Rattle.tandem_io.specs.Told.{ReadLogs};
    ghost use Rattle.tandem_io.specs.Inputs.{Beside, beside_of};
    ghost use Rattle.tandem_io.specs.FileSlot.{told_of_files, GivesLent};

    ghost left = { λ f. f.stream.told.left };

    ghost log = { λ _. None };

    ghost ended = { λ f. f.stream.told.ended };

    ghost faults = { λ f. f.stream.told.faults };

    ghost is_open = { λ f. is_some f.stream.told.attached };

    ghost lent = { λ f. f.stream.lent };

    ghost Aside = { Beside };

    ghost aside = { λ f. beside_of None (told_of_files f) };

    /// Gives on what was read of the file, and reads on in it where nothing is left of that. It
    /// fails exactly where that fails.
    fn read(&mut self, buf: &mut [u8]) -> Result<usize, Failed>
        requires { 0 < length buf.old }
        // What every source does.
        ensures bound { ReadsAtMost result buf.new }
        ensures bytes { ReadConsumes self.old.stream.told.left self.new.stream.told.left result buf.new }
        ensures empty { is_some self.old.stream.told.attached ≡ false → IfOk result (λ n. n ≡ 0) }
        ensures logged { ReadLogs None None result buf.new }
        ensures end { self.new.stream.told.ended ≡ answered_end result }
        ensures cause { HasCause self.old.stream.told.faults self.new.stream.told.faults result }
        ensures count { self.old.stream.told.faults ≤ self.new.stream.told.faults }
        ensures beside { beside_of None (told_of_files self.new) ≡ beside_of None (told_of_files self.old) }

        // What this one does.
        ensures count_after { self.new.stream.told.faults ≡ faults_after self.old.stream.told.faults result }
        ensures errors_after { self.new.stream.errors ≡ faults_after self.old.stream.errors result }
        ensures failed { is_err result ≡ self.new.stream.failed }
        ensures waiting { 0 < length self.old.stream.lent →
            GivesLent self.old.stream.lent self.new.stream.lent result buf.new }
        ensures attached { self.new.stream.told.attached ≡ self.old.stream.told.attached }
        ensures image { self.new.image ≡ self.old.image }
    {
        self.stream.read(buf)
    }

    /// Lends what was read of the file and is not yet given on.
    fn ready(&self) -> &[u8] {
        self.stream.ready()
    }

    /// Gives on the first `n` of those bytes.
    fn skip(&mut self, n: usize)
        requires { n ≤ length self.old.stream.lent }
        ensures bytes { Consumes self.old.stream.told.left self.new.stream.told.left (take n self.old.stream.lent) }
        ensures beside { beside_of None (told_of_files self.new) ≡ beside_of None (told_of_files self.old) }
        ensures rest { self.new.stream.lent ≡ drop n self.old.stream.lent }
        ensures end { self.new.stream.told.ended ≡ (self.old.stream.told.ended && nat_eq n 0) }
        ensures count_after { self.new.stream.told.faults ≡ self.old.stream.told.faults }
        ensures errors_after { self.new.stream.errors ≡ self.old.stream.errors }
        ensures failed { self.new.stream.failed ≡ self.old.stream.failed }
        ensures attached { self.new.stream.told.attached ≡ self.old.stream.told.attached }
        ensures image { self.new.image ≡ self.old.image }
    {
        self.stream.skip(n);
    }
}

impl<R: Files> Inputs for FileInputs<'_, R> {
    ghost use Rattle.std.specs.Prelude.{refl};
    ghost use Rattle.std.proofs.Common.{rules};
    ghost use Rattle.tandem_io.specs.Inputs.{Attaches, LogsFrom, view_of, other_of};
    ghost use Rattle.tandem_io.specs.FileSlot.{told_of_files, file_slot_of, other_file_slot};
    ghost use Rattle.tandem_io.specs.FileSlot.{after_attaching, GivesLent};

    ghost names = { λ _. None };

    ghost slots = { told_of_files };

    /// Opens the file of that name. A slot whose file can't be opened keeps the one that it had.
    fn attach(&mut self, slot: Slot, name: &str) -> Result<bool, Failed>
        // What all inputs do.
        ensures attaches { Attaches None name.now
            (view_of slot (told_of_files self.old)) (view_of slot (told_of_files self.new)) result }
        ensures others { other_of slot (told_of_files self.new) ≡ other_of slot (told_of_files self.old) }
        ensures logged { LogsFrom slot None None result }

        // What these do.
        ensures count_after { (view_of slot (told_of_files self.new)).faults ≡
            faults_after (view_of slot (told_of_files self.old)).faults result }
        ensures after { file_slot_of slot self.new ≡
            after_attaching (file_slot_of slot self.old) (file_slot_of slot self.new).told.left result }
        ensures other { other_file_slot slot self.new ≡ other_file_slot slot self.old }
    {
        let opened = fs::open(self.rt, name);
        match slot {
            Slot::Image => self.image.attach(opened),
            Slot::Stream => self.stream.attach(opened),
        }
    }

    /// Gives on what was read of the file, and reads on in it where nothing is left of that. It
    /// fails exactly where that fails.
    fn read_image(&mut self, buf: &mut [u8]) -> Result<usize, Failed>
        requires { 0 < length buf.old }
        // What all inputs do.
        ensures bound { ReadsAtMost result buf.new }
        ensures bytes { ReadConsumes self.old.image.told.left self.new.image.told.left result buf.new }
        ensures empty { self.old.image.told.attached ≡ None → IfOk result (λ n. n ≡ 0) }
        ensures end { self.new.image.told.ended ≡ answered_end result }
        ensures cause { HasCause self.old.image.told.faults self.new.image.told.faults result }
        ensures count { self.old.image.told.faults ≤ self.new.image.told.faults }

        // What these do.
        ensures count_after { self.new.image.told.faults ≡ faults_after self.old.image.told.faults result }
        ensures errors_after { self.new.image.errors ≡ faults_after self.old.image.errors result }
        ensures failed { is_err result ≡ self.new.image.failed }
        ensures waiting { 0 < length self.old.image.lent →
            GivesLent self.old.image.lent self.new.image.lent result buf.new }
        ensures attached { self.new.image.told.attached ≡ self.old.image.told.attached }
        ensures stream { self.new.stream ≡ self.old.stream }
    {
        self.image.read(buf)
    }

    ghost is_stream = { λ s. record { left_is = refl; ended_is = refl; faults_is = refl; open_is = refl } };

    ghost is_beside = { λ s t same. Prim.search rules };
}
