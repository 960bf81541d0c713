//! Inputs and a sink that never fail.

ghost use Rattle.std.specs.Prelude.{◌≡◌, ◌<◌, ◌≤◌, [], OnOk, OnErr, IfOk, IsOk, is_some, None, Some, Ok, length};
ghost use Rattle.std.specs.Prelude.{map, take};
ghost use Rattle.std.specs.Io.{ReadsAtMost};
ghost use Rattle.std.specs.Io.KnownBytes.{Consumes, ReadConsumes};

use super::sink::Sink;
use super::source::{Inputs, Source};
use super::store::Store;
use super::types::{Failed, Slot};
use std::alloc::{AllocError, Global};
use std::marker::Model;

/// Inputs in memory that never fail. Attaching and reading take no memory.
#[derive(Debug, Drop)]
pub struct SureInputs {
    store: Store,
}

impl Model for SureInputs {
    ghost use Rattle.tandem_io.specs.Store.{HeldInputs};

    ghost Value = { HeldInputs };

    ghost view = { λ s. s.store };
}

impl SureInputs {
    ghost use Rattle.tandem_io.specs.Inputs.{content_of};
    ghost use Rattle.tandem_io.specs.Store.{nothing_held, with_content};

    /// Inputs without a name yet, of which a read takes at most `step` bytes.
    pub fn new(alloc: Global, step: usize) -> SureInputs
        requires { 1 ≤ step }
        ensures { result ≡ nothing_held step }
    {
        SureInputs {
            store: Store::new(alloc, step),
        }
    }

    /// Adds a content under a name that was not added before.
    pub fn add(&mut self, name: &str, bytes: &[u8]) -> Result<(), AllocError>
        requires { content_of self.old.names name.now ≡ None }
        ensures ok { OnOk result (self.new ≡ with_content self.old name.now bytes.now) }
        ensures err { OnErr result (self.new ≡ self.old) }
    {
        self.store.add(name, bytes)
    }
}

impl Source for SureInputs {
    ghost use Rattle.tandem_io.specs.Told.{Logs, ReadLogs, taken};
    ghost use Rattle.tandem_io.specs.Inputs.{Beside, beside_of};
    ghost use Rattle.tandem_io.specs.Store.{log_of, slots_of, taken_by, after_read, lent_of, after_skip};

    ghost left = { λ s. Some s.stream.left };

    ghost log = { λ s. log_of s.stream };

    ghost ended = { λ s. s.stream.ended };

    ghost faults = { λ _. 0 };

    ghost is_open = { λ s. is_some s.stream.attached };

    ghost lent = { λ s. lent_of s.stream s.step };

    ghost Aside = { Beside };

    ghost aside = { λ s. beside_of (Some s.names) (slots_of s 0 0) };

    /// Takes as many bytes as it can, and at most `step`.
    fn read(&mut self, buf: &mut [u8]) -> Result<usize, Failed>
        requires { 0 < length buf.old }
        // What every source does.
        ensures bound { ReadsAtMost result buf.new }
        ensures bytes { ReadConsumes (Some self.old.stream.left) (Some self.new.stream.left) result buf.new }
        ensures empty { self.old.stream.attached ≡ None → IfOk result (λ n. n ≡ 0) }
        ensures logged { ReadLogs (log_of self.old.stream) (log_of self.new.stream) result buf.new }

        // What this one does.
        ensures taken { result ≡ Ok (taken_by self.old.stream self.old.step (length buf.old)) }
        ensures after { IfOk result (λ n. self.new ≡ record self.old { stream = after_read self.old.stream n }) }
    {
        Ok(self.store.read(Slot::Stream, buf))
    }

    /// Lends as many bytes as it can, and at most `step`.
    fn ready(&self) -> &[u8] {
        self.store.ready()
    }

    /// Takes the first `n` of the bytes that it lends.
    fn skip(&mut self, n: usize)
        requires { n ≤ length (lent_of self.old.stream self.old.step) }
        ensures bytes { Consumes (Some self.old.stream.left) (Some self.new.stream.left)
            (take n (lent_of self.old.stream self.old.step)) }
        ensures logged { Logs (log_of self.old.stream) (log_of self.new.stream)
            (map taken (take n (lent_of self.old.stream self.old.step))) }
        ensures after { self.new ≡ record self.old { stream = after_skip self.old.stream n } }
    {
        self.store.skip(n);
    }
}

impl Inputs for SureInputs {
    ghost use Rattle.std.specs.Prelude.{refl};
    ghost use Rattle.std.proofs.Common.{rules};
    ghost use Rattle.tandem_io.specs.Inputs.{content_of};
    ghost use Rattle.tandem_io.specs.Store.{slots_of, taken_by, slot_of, with_slot, after_attach, after_read};

    ghost names = { λ s. Some s.names };

    ghost slots = { λ s. slots_of s 0 0 };

    fn attach(&mut self, slot: Slot, name: &str) -> Result<bool, Failed>
        ensures found { result ≡ Ok (is_some (content_of self.old.names name.now)) }
        ensures after { self.new ≡ with_slot slot self.old
            (after_attach (slot_of slot self.old) (content_of self.old.names name.now)) }
    {
        Ok(self.store.attach(slot, name))
    }

    /// Takes as many bytes as it can, and at most `step`.
    fn read_image(&mut self, buf: &mut [u8]) -> Result<usize, Failed>
        requires { 0 < length buf.old }
        // What all inputs do.
        ensures bound { ReadsAtMost result buf.new }
        ensures bytes { ReadConsumes (Some self.old.image.left) (Some self.new.image.left) result buf.new }
        ensures empty { self.old.image.attached ≡ None → IfOk result (λ n. n ≡ 0) }

        // What these do.
        ensures taken { result ≡ Ok (taken_by self.old.image self.old.step (length buf.old)) }
        ensures after { IfOk result (λ n. self.new ≡ record self.old { image = after_read self.old.image n }) }
    {
        Ok(self.store.read(Slot::Image, buf))
    }

    ghost is_stream = { λ s. record { left_is = refl; ended_is = refl; faults_is = refl; open_is = refl } };

    ghost is_beside = { λ s t same. Prim.search rules };
}

/// A sink that takes every piece whole, keeps nothing, and never fails.
#[derive(Clone, Copy, Debug, PartialEq, Eq)]
pub struct SureSink;

impl SureSink {
    /// A sink; each is as any other.
    pub fn new() -> SureSink
        ensures { result ≡ record {} }
    {
        SureSink
    }
}

impl Sink for SureSink {
    ghost written = { λ _. None };

    ghost faults = { λ _. 0 };

    fn write(&mut self, buf: &[u8]) -> Result<usize, Failed>
        requires { 0 < length buf.now }
        ensures { result ≡ Ok (length buf.now) }
    {
        Ok(buf.len())
    }
}
