//! Contents by name in memory, and two slots that read them.

ghost use Rattle.std.specs.Prelude.{◌≡◌, ◌<◌, ◌≤◌, length, take, OnOk, OnErr, IfSome, IfNone, is_some, Some};
ghost use Rattle.std.specs.Prelude.{None, bytes_eq};

use super::cursor::{Cursor, NamedBytes, UNREAD, attach_at, read_at, ready_at, skip_at};
use super::types::Slot;
use std::alloc::{AllocError, Global};
use std::marker::Model;

/// Contents by name in memory, read through two slots.
#[derive(Debug, Drop)]
pub(super) struct Store {
    files: Vec<NamedBytes>,
    image: Cursor,
    stream: Cursor,
    step: usize,
}

impl Model for Store {
    ghost use Rattle.std.specs.Prelude.{◌≤◌};
    ghost use Rattle.tandem_io.specs.Store.{HeldInputs};

    ghost Value = { HeldInputs };

    ghost use Rattle.tandem_io.specs.Cursor.{slot_at, PointsInto};

    ghost view = { λ s. record {
      names = s.files.items;
      image = slot_at s.files.items s.image;
      stream = slot_at s.files.items s.stream;
      step = s.step;
    } };

    ghost invariant = { λ s. (1 ≤ s.step) × PointsInto s.files.items s.image × PointsInto s.files.items s.stream };
}

impl Store {
    ghost use Rattle.std.specs.Prelude.{[]};
    ghost use Rattle.tandem_io.specs.Inputs.{content_of};
    ghost use Rattle.tandem_io.specs.Store.{nothing_held, with_content, slot_of, with_slot, after_attach};
    ghost use Rattle.tandem_io.specs.Store.{after_read, after_miss, taken_by, lent_of, after_skip};

    /// No content yet. A read takes at most `step` bytes.
    pub(super) fn new(alloc: Global, step: usize) -> Store
        requires { 1 ≤ step }
        ensures { result ≡ nothing_held step }
    {
        Store {
            files: Vec::new(alloc),
            image: UNREAD,
            stream: UNREAD,
            step,
        }
    }

    /// Adds a content under a name that was not added before.
    pub(super) fn add(&mut self, name: &str, bytes: &[u8]) -> Result<(), AllocError>
        requires { content_of self.old.names name.now ≡ None }
        ensures ok { OnOk result (self.new ≡ with_content self.old name.now bytes.now) }
        ensures err { OnErr result (self.new ≡ self.old) }
    {
        let alloc = *self.files.allocator();
        self.files.push(NamedBytes::new(alloc, name, bytes)?)?;
        Ok(())
    }

    /// Attaches the content of that name to the slot, if it is there, and answers whether it is.
    pub(super) fn attach(&mut self, slot: Slot, name: &str) -> bool
        ensures answer { result ≡ is_some (content_of self.old.names name.now) }
        ensures after { self.new ≡ with_slot slot self.old
            (after_attach (slot_of slot self.old) (content_of self.old.names name.now)) }
    {
        match slot {
            Slot::Image => attach_at(&self.files, &mut self.image, name),
            Slot::Stream => attach_at(&self.files, &mut self.stream, name),
        }
    }

    /// Reads from the slot, as many bytes as it can and at most `step`, and answers how many.
    pub(super) fn read(&mut self, slot: Slot, buf: &mut [u8]) -> usize
        requires { 0 < length buf.old }
        ensures answer { result ≡ taken_by (slot_of slot self.old) self.old.step (length buf.old) }
        ensures after { self.new ≡ with_slot slot self.old (after_read (slot_of slot self.old) result) }
        ensures bytes { take result buf.new ≡ take result (slot_of slot self.old).left }
        ensures end { result ≡ 0 → (slot_of slot self.old).left ≡ [] }
        ensures empty { (slot_of slot self.old).attached ≡ None → result ≡ 0 }
    {
        match slot {
            Slot::Image => read_at(&self.files, &mut self.image, self.step, buf),
            Slot::Stream => read_at(&self.files, &mut self.stream, self.step, buf),
        }
    }

    /// The next bytes of the slot `Stream`, as many as it can and at most `step`.
    pub(super) fn ready(&self) -> &[u8]
        ensures lent { result.now ≡ lent_of self.now.stream self.now.step }
        ensures empty { self.now.stream.attached ≡ None → result.now ≡ [] }
    {
        ready_at(&self.files, &self.stream, self.step)
    }

    /// Takes the first `n` of those bytes.
    pub(super) fn skip(&mut self, n: usize)
        requires { n ≤ length (lent_of self.old.stream self.old.step) }
        ensures { self.new ≡ record self.old { stream = after_skip self.old.stream n } }
    {
        skip_at(&self.files, &mut self.stream, n);
    }

    /// Notes a read of the slot that failed.
    pub(super) fn miss(&mut self, slot: Slot)
        ensures { self.new ≡ with_slot slot self.old (after_miss (slot_of slot self.old)) }
    {
        match slot {
            Slot::Image => self.image.ended = false,
            Slot::Stream => self.stream.ended = false,
        }
    }
}
