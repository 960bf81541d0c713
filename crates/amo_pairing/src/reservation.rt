//! What is kept of an LR.

ghost use Rattle.std.specs.Prelude.{◌≡◌, None, slice_index_or};
ghost use Rattle.amo_pairing.specs.Breaches.{comes_after_source, foreign_seen, is_late_source};
ghost use Rattle.amo_pairing.specs.Breaches.{origin_of_writer, store_blamed, was_before, writer_after};
ghost use Rattle.amo_pairing.specs.Sources.{given_place, waits_under};

use crate::sc::Sc;
use byte_memory::{StoreCapture, Writer};
use tandem_base::{Extent, Origin, Position};
use window_laws::ByteSource;

/// An LR: its bytes, when it was performed, and where each byte comes from. Source k is that of byte k of
/// the extent; those past its end mean nothing.
#[derive(Clone, Copy, Debug, PartialEq, Eq)]
pub struct Reservation {
    /// The bytes that it loaded.
    pub extent: Extent,
    /// When it was performed.
    pub place: Position,
    /// Their sources.
    pub sources: [ByteSource; 8],
}

/// A byte of an LR at which it isn't atomic with its SC, by its number and its address, and the store that
/// shows it.
#[derive(Clone, Copy)]
pub struct Breach {
    byte: u8,
    at: u64,
    store: Origin,
}

/// Whether a source is of a store under this tag that isn't performed.
fn waits_under(source: &ByteSource, tag: u64) -> bool
    ensures { result ≡ waits_under tag source.now }
{
    match source.writer {
        Some(writer) => writer.tag == tag && source.place.is_none(),
        None => false,
    }
}

/// The source of the byte at `addr` once bytes of a store are performed.
fn placed(source: ByteSource, tag: u64, extent: &Extent, place: Position, addr: u64) -> ByteSource
    ensures { result ≡ given_place tag extent.now place addr source }
{
    if waits_under(&source, tag) && extent.has(addr) {
        ByteSource {
            writer: source.writer,
            place: Some(place),
            byte: source.byte,
        }
    } else {
        source
    }
}

/// The hart and tag of a writer.
fn origin(writer: &Writer) -> Origin
    ensures { result ≡ origin_of_writer writer.now }
{
    Origin {
        hart: writer.hart,
        tag: writer.tag,
    }
}

/// Whether there is a place, and it comes before another.
fn was_before(first: Option<Position>, place: Position) -> bool
    ensures { result ≡ was_before first place }
{
    match first {
        Some(first) => first.is_before(&place),
        None => false,
    }
}

/// Whether a source is a store that wasn't performed before a place.
fn is_late(source: &ByteSource, place: Position) -> bool
    ensures { result ≡ is_late_source source.now place }
{
    source.writer.is_some() && !was_before(source.place, place)
}

/// Whether a place comes after that of a source; the initial value comes before everything.
fn comes_after_source(source: &ByteSource, place: Position) -> bool
    ensures { result ≡ comes_after_source source.now place }
{
    source.writer.is_none() || was_before(source.place, place)
}

/// Writer `k` of a list, None past its end.
fn writer_of(writers: &[Option<Writer>; 8], k: u64) -> Option<Writer>
    ensures { result ≡ slice_index_or writers.now k None }
{
    match writers.get(k as usize) {
        Some(writer) => *writer,
        None => None,
    }
}

/// The last writer of the byte at `addr` that is of another hart, as a capture has it.
fn foreign_at(seen: &StoreCapture, hart: u8, addr: u64) -> Option<Writer>
    ensures { result ≡ foreign_seen seen.now hart addr }
{
    let k = addr.saturating_sub(seen.seen.base);
    match writer_of(&seen.seen.last, k) {
        None => None,
        Some(last) => {
            if last.hart == hart {
                writer_of(&seen.other, k)
            } else {
                Some(last)
            }
        }
    }
}

/// The writer, where it comes after a source.
fn after(source: &ByteSource, writer: Option<Writer>) -> Option<Origin>
    ensures { result ≡ writer_after source.now writer }
{
    match writer {
        None => None,
        Some(writer) => {
            if comes_after_source(source, writer.place) {
                Some(origin(&writer))
            } else {
                None
            }
        }
    }
}

/// The store that breaks a pair at a byte: its source where that is late, else the last store of another
/// hart, where it comes after the source.
fn blamed(source: &ByteSource, place: Position, foreign: Option<Writer>) -> Option<Origin>
    ensures { result ≡ store_blamed source.now place foreign }
{
    if is_late(source, place) {
        source.writer
    } else {
        after(source, foreign)
    }
}

impl Reservation {
    ghost use Rattle.std.specs.Prelude.{◌≡◌, ◌<◌};
    ghost use Rattle.amo_pairing.specs.Breaches.{answer_by, blamed_at, block_answer, lies_in, IsByBreach};
    ghost use Rattle.amo_pairing.specs.Breaches.{IsFirstBreach, IsScJudged};
    ghost use Rattle.amo_pairing.specs.Sources.{GivesPlaces};

    /// Gives the place at which bytes of a store were performed to the sources that waited for it.
    pub(crate) fn performed(&mut self, tag: u64, extent: &Extent, place: Position)
        ensures { GivesPlaces tag extent.now place self.old self.new }
    {
        for k in 0..self.extent.len {
            let addr = self.extent.addr + u64::from(k);
            let source = self.sources[k as usize];
            self.sources[k as usize] = placed(source, tag, extent, place, addr);
        }
    }

    /// Whether all bytes of an extent are among those of the LR.
    pub(crate) fn covers(&self, extent: &Extent) -> bool
        ensures { result ≡ lies_in extent.now self.now.extent }
    {
        self.extent.has(extent.addr) && self.extent.has(extent.addr + u64::from(extent.len - 1))
    }

    /// The store that breaks the pair at byte `k` of the LR.
    fn blamed_at(&self, hart: u8, seen: &StoreCapture, k: u8) -> Option<Origin>
        requires { k < self.now.extent.len }
        ensures { result ≡ blamed_at self.now hart seen.now k }
    {
        let foreign = foreign_at(seen, hart, self.extent.addr + u64::from(k));
        blamed(&self.sources[k as usize], seen.seen.place, foreign)
    }

    /// The lowest byte of the LR at which the pair is broken, with the store that breaks it.
    fn broken_byte(&self, hart: u8, seen: &StoreCapture) -> Option<Breach>
        ensures { IsFirstBreach self.now hart seen.now result }
    {
        for k in 0..self.extent.len {
            if let Some(store) = self.blamed_at(hart, seen, k) {
                return Some(Breach {
                    byte: k,
                    at: self.extent.addr + u64::from(k),
                    store,
                });
            }
        }
        None
    }

    /// The answer by the reserved block.
    fn by_block(&self, seen: &StoreCapture) -> Sc
        ensures { result ≡ block_answer self.now.place seen.now.foreign }
    {
        match seen.foreign {
            None => Sc::Fine,
            Some(found) => {
                if self.place.is_before(&found.writer.place) {
                    Sc::Atomicity {
                        at: found.at,
                        store: origin(&found.writer),
                    }
                } else {
                    Sc::Fine
                }
            }
        }
    }

    /// The answer by the breach that was found, else by the block.
    fn by_breach(&self, breach: Option<Breach>, seen: &StoreCapture) -> Sc
        ensures { result ≡ answer_by breach (block_answer self.now.place seen.now.foreign) }
    {
        match breach {
            Some(breach) => Sc::Atomicity {
                at: breach.at,
                store: breach.store,
            },
            None => self.by_block(seen),
        }
    }

    /// Judges whether the SC of a hart, whose bytes are among those of the LR, is atomic with it.
    fn atomicity(&self, hart: u8, seen: &StoreCapture) -> Sc
        ensures { IsByBreach self.now hart seen.now result }
    {
        let breach = self.broken_byte(hart, seen);
        self.by_breach(breach, seen)
    }

    /// Judges the SC of a hart with the bytes of an extent.
    pub(crate) fn judge(&self, hart: u8, extent: &Extent, seen: &StoreCapture) -> Sc
        ensures { IsScJudged self.now hart extent.now seen.now result }
    {
        if self.covers(extent) {
            self.atomicity(hart, seen)
        } else {
            Sc::Outside
        }
    }
}
