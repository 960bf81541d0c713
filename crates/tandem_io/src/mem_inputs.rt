//! Inputs in memory, of which calls can be made to fail.

ghost use Rattle.std.specs.Prelude.{◌≡◌, ◌<◌, ◌≤◌, [], length, take, IfOk, OnOk, OnErr, is_err, IsTrue};
ghost use Rattle.std.specs.Prelude.{if◌then◌else◌, is_some, Some, None};
ghost use Rattle.std.specs.Io.{ReadsAtMost};
ghost use Rattle.std.specs.Io.KnownBytes.{ReadConsumes};
ghost use Rattle.tandem_io.specs.Causes.{Rose, HasCause, answered_end};

use super::calls::Calls;
use super::source::{Inputs, Source};
use super::store::Store;
use super::types::{Failed, Slot};
use std::alloc::{AllocError, Global};
use std::marker::Model;

/// Inputs in memory, of which calls can be made to fail. Attaching and reading take no memory.
#[derive(Debug, Drop)]
pub struct MemInputs {
    store: Store,
    image: Calls,
    stream: Calls,
}

impl Model for MemInputs {
    ghost use Rattle.tandem_io.specs.MemInputs.{Failing};

    ghost Value = { Failing };

    ghost view = { λ m. record { held = m.store; image = m.image; stream = m.stream } };
}

impl MemInputs {
    ghost use Rattle.tandem_io.specs.Inputs.{content_of};
    ghost use Rattle.tandem_io.specs.Calls.{next_fails, after_call, with_failing};
    ghost use Rattle.tandem_io.specs.Store.{with_content};
    ghost use Rattle.tandem_io.specs.MemInputs.{none_failing, calls_of, with_calls};

    /// Inputs without a name yet, of which a read takes at most `step` bytes.
    pub fn new(alloc: Global, step: usize) -> MemInputs
        requires { 1 ≤ step }
        ensures { result ≡ none_failing step }
    {
        MemInputs {
            store: Store::new(alloc, step),
            image: Calls::new(alloc),
            stream: Calls::new(alloc),
        }
    }

    /// Adds a content under a name that was not added before.
    pub fn add(&mut self, name: &str, bytes: &[u8]) -> Result<(), AllocError>
        requires { content_of self.old.held.names name.now ≡ None }
        ensures ok { OnOk result (self.new ≡ record self.old { held = with_content self.old.held name.now bytes.now }) }
        ensures err { OnErr result (self.new ≡ self.old) }
    {
        self.store.add(name, bytes)
    }

    /// Has the call of this number on the slot fail. The calls on each slot are numbered from 1,
    /// those of `attach` among them, and each one after number 2^64 - 1 has that number again.
    pub fn fail_at(&mut self, slot: Slot, call: u64) -> Result<(), AllocError>
        ensures ok { OnOk result (self.new ≡ with_calls slot self.old (with_failing (calls_of slot self.old) call)) }
        ensures err { OnErr result (self.new ≡ self.old) }
    {
        match slot {
            Slot::Image => self.image.fail_at(call),
            Slot::Stream => self.stream.fail_at(call),
        }
    }

    /// Numbers the next call on the slot, and answers whether it fails.
    fn next_fails(&mut self, slot: Slot) -> bool
        ensures answer { result ≡ next_fails (calls_of slot self.old) }
        ensures after { self.new ≡ with_calls slot self.old (after_call (calls_of slot self.old) result) }
        ensures cause { IsTrue result → Rose (calls_of slot self.old).faults (calls_of slot self.new).faults }
        ensures count { (calls_of slot self.old).faults ≤ (calls_of slot self.new).faults }
    {
        match slot {
            Slot::Image => self.image.next(),
            Slot::Stream => self.stream.next(),
        }
    }
}

impl Source for MemInputs {
    ghost use Rattle.tandem_io.specs.Told.{ReadLogs};
    ghost use Rattle.tandem_io.specs.Calls.{next_fails, after_call};
    ghost use Rattle.tandem_io.specs.Inputs.{Beside, beside_of};
    ghost use Rattle.tandem_io.specs.Store.{log_of, slots_of, taken_by};
    ghost use Rattle.tandem_io.specs.MemInputs.{after_answer};

    ghost left = { λ m. Some m.held.stream.left };

    ghost log = { λ m. log_of m.held.stream };

    ghost ended = { λ m. m.held.stream.ended };

    ghost faults = { λ m. m.stream.faults };

    ghost is_open = { λ m. is_some m.held.stream.attached };

    ghost lent = { λ _. [] };

    ghost Aside = { Beside };

    ghost aside = { λ m. beside_of (Some m.held.names) (slots_of m.held m.image.faults m.stream.faults) };

    /// Takes as many bytes as it can, and at most `step`.
    fn read(&mut self, buf: &mut [u8]) -> Result<usize, Failed>
        requires { 0 < length buf.old }
        // What every source does.
        ensures bound { ReadsAtMost result buf.new }
        ensures bytes { ReadConsumes (Some self.old.held.stream.left) (Some self.new.held.stream.left) result buf.new }
        ensures empty { self.old.held.stream.attached ≡ None → IfOk result (λ n. n ≡ 0) }
        ensures logged { ReadLogs (log_of self.old.held.stream) (log_of self.new.held.stream) result buf.new }
        ensures cause { HasCause self.old.stream.faults self.new.stream.faults result }
        ensures count { self.old.stream.faults ≤ self.new.stream.faults }

        // What this one does.
        ensures fails { is_err result ≡ next_fails self.old.stream }
        ensures taken { IfOk result (λ n. n ≡ taken_by self.old.held.stream self.old.held.step (length buf.old)) }
        ensures after { self.new ≡ record self.old {
          held = record self.old.held { stream = after_answer self.old.held.stream result };
          stream = after_call self.old.stream (is_err result);
        } }
    {
        if self.next_fails(Slot::Stream) {
            self.store.miss(Slot::Stream);
            return Err(Failed);
        }
        Ok(self.store.read(Slot::Stream, buf))
    }

    /// Lends nothing, so that each byte is taken by a call that can be made to fail.
    fn ready(&self) -> &[u8] {
        &[]
    }

    /// Takes none, as none is lent.
    fn skip(&mut self, _n: usize)
        requires { _n ≤ 0 }
        ensures { self.new ≡ self.old }
    {}
}

impl Inputs for MemInputs {
    ghost use Rattle.tandem_io.specs.Told.{Logs};
    ghost use Rattle.std.specs.Prelude.{refl};
    ghost use Rattle.std.proofs.Common.{rules};
    ghost use Rattle.tandem_io.specs.Inputs.{content_of, view_of, Attaches};
    ghost use Rattle.tandem_io.specs.Calls.{next_fails, after_call};
    ghost use Rattle.tandem_io.specs.Store.{log_of, slots_of, taken_by, slot_of, with_slot, after_attach};
    ghost use Rattle.tandem_io.specs.MemInputs.{after_answer, calls_of, with_calls};

    ghost names = { λ m. Some m.held.names };

    ghost slots = { λ m. slots_of m.held m.image.faults m.stream.faults };

    fn attach(&mut self, slot: Slot, name: &str) -> Result<bool, Failed>
        ensures cause { HasCause (calls_of slot self.old).faults (calls_of slot self.new).faults result }
        ensures count { (calls_of slot self.old).faults ≤ (calls_of slot self.new).faults }
        ensures fails { is_err result ≡ next_fails (calls_of slot self.old) }
        ensures found { IfOk result (λ found. found ≡ is_some (content_of self.old.held.names name.now)) }
        ensures held { self.new.held ≡ (if is_err result then self.old.held else with_slot slot self.old.held
            (after_attach (slot_of slot self.old.held) (content_of self.old.held.names name.now))) }
        ensures calls { self.new ≡ with_calls slot (record self.old { held = self.new.held })
            (after_call (calls_of slot self.old) (is_err result)) }
    {
        if self.next_fails(slot) {
            return Err(Failed);
        }
        Ok(self.store.attach(slot, name))
    }

    /// Takes as many bytes as it can, and at most `step`.
    fn read_image(&mut self, buf: &mut [u8]) -> Result<usize, Failed>
        requires { 0 < length buf.old }
        // What all inputs do.
        ensures bound { ReadsAtMost result buf.new }
        ensures bytes { ReadConsumes (Some self.old.held.image.left) (Some self.new.held.image.left) result buf.new }
        ensures empty { self.old.held.image.attached ≡ None → IfOk result (λ n. n ≡ 0) }
        ensures cause { HasCause self.old.image.faults self.new.image.faults result }
        ensures count { self.old.image.faults ≤ self.new.image.faults }

        // What these do.
        ensures fails { is_err result ≡ next_fails self.old.image }
        ensures taken { IfOk result (λ n. n ≡ taken_by self.old.held.image self.old.held.step (length buf.old)) }
        ensures after { self.new ≡ record self.old {
          held = record self.old.held { image = after_answer self.old.held.image result };
          image = after_call self.old.image (is_err result);
        } }
    {
        if self.next_fails(Slot::Image) {
            self.store.miss(Slot::Image);
            return Err(Failed);
        }
        Ok(self.store.read(Slot::Image, buf))
    }

    ghost is_stream = { λ s. record { left_is = refl; ended_is = refl; faults_is = refl; open_is = refl } };

    ghost is_beside = { λ s t same. Prim.search rules };
}
