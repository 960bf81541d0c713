//! What gives bytes, and inputs by name.

ghost use Rattle.std.specs.Prelude.{◌≡◌, ℕ, ◌<◌, ◌≤◌, ◌&&◌, Bool, false, List, [], length, map, nat_eq, take};
ghost use Rattle.std.specs.Prelude.{None, IfOk, Option};
ghost use Rattle.std.specs.Io.{ReadsAtMost};
ghost use Rattle.std.specs.Io.KnownBytes.{Consumes, ReadConsumes};

use super::types::{Failed, Slot};

/// What gives bytes: the stream of a run, or the other end of a connection.
///
/// A source has a count of faults. It never falls, and stands still at 2^64 - 1.
pub trait Source {
    ghost use Rattle.tandem_io.specs.Causes.{HasCause, answered_end};
    ghost use Rattle.tandem_io.specs.Told.{Log, Logs, ReadLogs, BeginsWith, taken};

    // The bytes that it still holds, where it tells them.
    ghost left: { Self → Option (List ℕ) };

    // The bytes that passed, where it tells them.
    ghost log: { Self → Log };

    // Whether its last read answered 0.
    ghost ended: { Self → Bool };

    // Its count of faults.
    ghost faults: { Self → ℕ };

    // Whether anything was ever attached to it, or connected. Before that a read answers 0.
    ghost is_open: { Self → Bool };

    // The bytes that it lends now.
    ghost lent: { Self → List ℕ };

    // What it tells beside, which its reads leave alone. A trait above says by a law what of its own
    // members this is.
    ghost Aside: { Type 0 };

    ghost aside: { Self → Aside };

    /// Reads into `buf`, which is not empty, and answers how many bytes: 0 is the end of the input.
    /// A read that fails takes nothing.
    fn read(&mut self, buf: &mut [u8]) -> Result<usize, Failed>
        requires { 0 < length buf.old }
        ensures bound { ReadsAtMost result buf.new }
        ensures bytes { ReadConsumes (left self.old) (left self.new) result buf.new }
        ensures empty { is_open self.old ≡ false → IfOk result (λ n. n ≡ 0) }
        ensures logged { ReadLogs (log self.old) (log self.new) result buf.new }
        ensures end { ended self.new ≡ answered_end result }
        ensures cause { HasCause (faults self.old) (faults self.new) result }
        ensures count { faults self.old ≤ faults self.new }
        ensures opened { is_open self.new ≡ is_open self.old }
        ensures beside { aside self.new ≡ aside self.old };

    /// The next bytes, where it holds some already: they can be looked at here, and taken by
    /// `skip`. It may lend none, which says nothing of the end of the input.
    fn ready(&self) -> &[u8]
        ensures lent { result.now ≡ lent self.now }
        ensures front { BeginsWith (left self.now) result.now }
        ensures empty { is_open self.now ≡ false → result.now ≡ [] };

    /// Takes the first `n` of the bytes that it lends, as a read of them would.
    fn skip(&mut self, n: usize)
        requires { n ≤ length (lent self.old) }
        ensures bytes { Consumes (left self.old) (left self.new) (take n (lent self.old)) }
        ensures logged { Logs (log self.old) (log self.new) (map taken (take n (lent self.old))) }
        ensures end { ended self.new ≡ (ended self.old && nat_eq n 0) }
        ensures faults { faults self.new ≡ faults self.old }
        ensures opened { is_open self.new ≡ is_open self.old }
        ensures beside { aside self.new ≡ aside self.old };
}

/// Inputs by name, in two slots: what is attached to the slot `Stream` is read as the source, and
/// what is attached to the slot `Image` by `read_image`. A slot that was never attached reads as
/// empty.
///
/// Each slot has a count of faults of its own, which only calls on that slot raise. No call
/// changes the names and their contents, or what is told of the other slot.
pub trait Inputs: Source {
    ghost use Rattle.tandem_io.specs.Causes.{HasCause, answered_end};
    ghost use Rattle.tandem_io.specs.Told.{Logs};
    ghost use Rattle.tandem_io.specs.Inputs.{Named, Slots, view_of, other_of, Attaches, LogsFrom, IsStream, IsBeside};

    // The contents by name, where they are told.
    ghost names: { Self → Option (List Named) };

    // What is told of the two slots.
    ghost slots: { Self → Slots };

    /// Makes the slot hold the content of that name, from its first byte. Answers false where no
    /// such name is there.
    fn attach(&mut self, slot: Slot, name: &str) -> Result<bool, Failed>
        ensures names { names self.new ≡ names self.old }
        ensures attaches { Attaches (names self.old) name.now
            (view_of slot (slots self.old)) (view_of slot (slots self.new)) result }
        ensures other { other_of slot (slots self.new) ≡ other_of slot (slots self.old) }
        ensures logged { LogsFrom slot (Self.log self.old) (Self.log self.new) result };

    /// Reads from the slot `Image`, as `read` does from the slot `Stream`.
    fn read_image(&mut self, buf: &mut [u8]) -> Result<usize, Failed>
        requires { 0 < length buf.old }
        ensures bound { ReadsAtMost result buf.new }
        ensures bytes { ReadConsumes (slots self.old).image.left (slots self.new).image.left result buf.new }
        ensures empty { (slots self.old).image.attached ≡ None → IfOk result (λ n. n ≡ 0) }
        ensures end { (slots self.new).image.ended ≡ answered_end result }
        ensures cause { HasCause (slots self.old).image.faults (slots self.new).image.faults result }
        ensures count { (slots self.old).image.faults ≤ (slots self.new).image.faults }
        ensures last { (slots self.new).image.attached ≡ (slots self.old).image.attached }
        ensures names { names self.new ≡ names self.old }
        ensures other { (slots self.new).stream ≡ (slots self.old).stream }
        ensures logged { Logs (Self.log self.old) (Self.log self.new) [] };

    // The source is what is attached to the slot `Stream`.
    ghost is_stream: { (s : Self) →
        IsStream (slots s).stream (Self.left s) (Self.ended s) (Self.faults s) (Self.is_open s) };

    // What reads of the source leave alone: the names, the slot `Image`, and what was attached.
    ghost is_beside: { (s t : Self) → Self.aside s ≡ Self.aside t →
        IsBeside (names s) (names t) (slots s) (slots t) };
}
