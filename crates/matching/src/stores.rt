//! The stores that retired, what became of their bytes, and the Inserts that wait.

ghost use Rattle.std.specs.Prelude.{◌≡◌, ◌+◌, ◌==◌, ◌&&◌, ◌<◌, ◌≤◌, not, reverse, map, true};
ghost use Rattle.std.specs.Prelude.{IfSome, OnErr, OnOk, slice_index_or};
ghost use Rattle.std.specs.Prelude.{is_some, if◌then◌else◌};
ghost use Rattle.std.specs.List.{filter, cons_option};
ghost use Rattle.std.specs.Option.{option_map};
ghost use Rattle.rv_step.specs.Plans.{doing_seen};
ghost use Rattle.matching.specs.Searches.{first_below, earliest};
ghost use Rattle.msg_frames.specs.Pieces.{has};
ghost use Rattle.matching.specs.Pieces.{line_start};
ghost use Rattle.matching.specs.Fates as Fates;
ghost use Rattle.matching.specs.Stores.{new_store};
ghost use Rattle.matching.specs.PartFaults.{is_again, is_known, byte_waiting};
ghost use Rattle.matching.specs.EndFaults.{is_left, first_left};
ghost use Rattle.matching.specs.Tables as Tables;

use super::pieces::{byte_at, has_byte, is_inside, line_at};
use msg_frames::{Head, Piece};
use rv_step::What;
use std::alloc::AllocError;
use tandem_base::Place;

/// What became of a byte of a store.
#[derive(Clone, Copy, Debug, PartialEq, Eq)]
pub enum Fate {
    /// No message was of it.
    Nothing,
    /// It waits in the Insert of this number.
    Waiting(u64),
    /// It was performed at this place.
    Done(Place),
}

/// An Insert that waits.
#[derive(Clone, Copy, Debug, PartialEq, Eq)]
pub struct Held {
    /// The number of the message, from 1.
    pub number: u64,
    /// The tag of the store.
    pub tag: u64,
    /// The bytes.
    pub piece: Piece,
}

/// A plain store that retired.
#[derive(Clone, Copy, Debug, PartialEq, Eq)]
pub struct Stored {
    /// The tag of the instruction.
    pub tag: u64,
    /// The bytes.
    pub piece: Piece,
}

/// A plain store that retired, with the fate of each of its at most eight bytes.
#[derive(Clone, Copy, Debug, PartialEq, Eq)]
pub struct Tracked {
    /// The store.
    pub store: Stored,
    /// The fate of the byte at `addr + k`.
    pub fates: [Fate; 8],
}

/// The fate of a byte of a Write's line.
fn drained_by(time: u64, n: u64, old: Fate) -> Fate
    ensures { result ≡ Fates.drained time n old }
{
    match old {
        Fate::Nothing => Fate::Nothing,
        Fate::Waiting(insert) => Fate::Done(Place {
            time,
            message: n,
            insert,
        }),
        Fate::Done(place) => Fate::Done(place),
    }
}

/// Whether a byte was performed.
fn is_performed(fate: Fate) -> bool
    ensures { result ≡ Fates.is_done fate }
{
    matches!(fate, Fate::Done(_))
}

/// Whether a byte was in no message.
fn is_untouched(fate: Fate) -> bool
    ensures { result ≡ Fates.is_fresh fate }
{
    matches!(fate, Fate::Nothing)
}

impl Tracked {
    /// A store of which no byte was in a message.
    fn new(store: Stored) -> Tracked
        ensures { result ≡ Tables.untouched store }
    {
        Tracked {
            store,
            fates: [Fate::Nothing; 8],
        }
    }

    /// The address of byte `k`, which may be past 2^64 where the store has no such byte.
    fn address(&self, k: u8) -> u128
        ensures { result ≡ self.now.store.piece.addr + k }
    {
        u128::from(self.store.piece.addr) + u128::from(k)
    }

    /// The fate of byte `k`.
    fn fate(&self, k: u8) -> Fate
        requires { k < 8 }
        ensures { result ≡ Tables.fate_in_store self.now k }
    {
        self.fates[usize::from(k)]
    }

    /// The fate of byte `k`, after a part that gives its bytes this fate.
    fn part_fate(&self, new: Fate, piece: &Piece, k: u8) -> Fate
        requires { k < 8 }
        ensures { result
            ≡ (if has piece.now (self.now.store.piece.addr + k) then new else Tables.fate_in_store self.now k) }
    {
        if has_byte(piece, self.address(k)) {
            new
        } else {
            self.fate(k)
        }
    }

    /// Gives the bytes of a piece of the store under a tag this fate.
    fn take_part(&mut self, new: Fate, tag: u64, piece: &Piece)
        ensures { self.new ≡ Tables.with_part new tag piece.now self.old }
    {
        if self.store.tag == tag {
            self.fates = [
                self.part_fate(new, piece, 0),
                self.part_fate(new, piece, 1),
                self.part_fate(new, piece, 2),
                self.part_fate(new, piece, 3),
                self.part_fate(new, piece, 4),
                self.part_fate(new, piece, 5),
                self.part_fate(new, piece, 6),
                self.part_fate(new, piece, 7),
            ];
        }
    }

    /// The fate of byte `k`, after a Write of this line, which is message `n`.
    fn line_fate(&self, time: u64, n: u64, line: u64, k: u8) -> Fate
        requires { k < 8 }
        ensures { result
            ≡ (if line == line_start (self.now.store.piece.addr + k) then Fates.drained time n
            (Tables.fate_in_store self.now k)
            else Tables.fate_in_store self.now k) }
    {
        if u128::from(line) == line_at(self.address(k)) {
            drained_by(time, n, self.fate(k))
        } else {
            self.fate(k)
        }
    }

    /// Performs the bytes of a line that wait.
    fn take_line(&mut self, time: u64, n: u64, line: u64)
        ensures { self.new ≡ Tables.with_line time n line self.old }
    {
        self.fates = [
            self.line_fate(time, n, line, 0),
            self.line_fate(time, n, line, 1),
            self.line_fate(time, n, line, 2),
            self.line_fate(time, n, line, 3),
            self.line_fate(time, n, line, 4),
            self.line_fate(time, n, line, 5),
            self.line_fate(time, n, line, 6),
            self.line_fate(time, n, line, 7),
        ];
    }

    /// Whether one of the first `count` bytes is of the piece, and was in a message.
    fn is_touched(&self, piece: &Piece, count: u8) -> bool
        requires { count ≤ 8 }
        ensures { result
            ≡ is_some (first_below (is_again (Tables.fate_in_store self.now) piece.now self.now.store) count) }
    {
        let mut touched = false;
        for k in 0..count {
            if has_byte(piece, self.address(k)) && !is_untouched(self.fate(k)) {
                touched = true;
            }
        }
        touched
    }

    /// Whether the piece is of the store, and none of its bytes was in a message.
    #[tactic(auto, unfolding(crate::specs::PartFaults::is_known))]
    pub(crate) fn is_known(&self, piece: &Piece) -> bool
        ensures { result ≡ is_known (Tables.fate_in_store self.now) piece.now self.now.store }
    {
        is_inside(piece, &self.store.piece) && !self.is_touched(piece, 8)
    }

    /// The first of the first `count` bytes that isn't performed, None where there is none.
    fn first_open_of(&self, count: u8) -> Option<u8>
        requires { count ≤ 8 }
        ensures { result ≡ first_below (is_left (Tables.fate_in_store self.now) self.now.store) count }
    {
        let mut first = None;
        for k in 0..count {
            let open = k < self.store.piece.bytes.len() && !is_performed(self.fate(k));
            if first.is_none() && open {
                first = Some(k);
            }
        }
        first
    }

    /// The first byte that isn't performed, None where there is none.
    #[tactic(auto, unfolding(crate::specs::EndFaults::first_left))]
    pub(crate) fn first_open(&self) -> Option<u8>
        ensures { result ≡ first_left (Tables.fate_in_store self.now) self.now.store }
    {
        self.first_open_of(8)
    }
}

/// The store under a tag.
pub fn store_under(stores: &[Tracked], tag: u64) -> Option<Tracked>
    ensures { result ≡ Tables.tracked_under tag (reverse stores.now) }
{
    let mut found: Option<Tracked> = None;
    for tracked in stores {
        if tracked.store.tag == tag {
            found = Some(*tracked);
        }
    }
    found
}

/// The earliest store that isn't performed.
pub(crate) fn earliest_open(stores: &[Tracked]) -> Option<Tracked>
    ensures { result ≡ earliest Tables.is_left_open (reverse stores.now) }
{
    let mut found: Option<Tracked> = None;
    for tracked in stores {
        if found.is_none() && tracked.first_open().is_some() {
            found = Some(*tracked);
        }
    }
    found
}

/// Gives the bytes of a piece of the store under a tag this fate.
pub(crate) fn take_part(stores: &mut Vec<Tracked>, new: Fate, tag: u64, piece: &Piece)
    ensures { reverse stores.new.items ≡ map (Tables.with_part new tag piece.now) (reverse stores.old.items) }
{
    for tracked in stores.iter_mut() {
        tracked.take_part(new, tag, piece);
    }
}

/// Performs the bytes of a line that wait.
pub(crate) fn take_line(stores: &mut Vec<Tracked>, time: u64, n: u64, line: u64)
    ensures { reverse stores.new.items ≡ map (Tables.with_line time n line) (reverse stores.old.items) }
{
    for tracked in stores.iter_mut() {
        tracked.take_line(time, n, line);
    }
}

/// Keeps a plain store that retires.
pub(crate) fn keep_store(
    stores: &mut Vec<Tracked>,
    tag: u64,
    what: &What,
    piece: &Option<Piece>,
) -> Result<(), AllocError>
    ensures kept { OnErr result (reverse stores.new.items ≡ reverse stores.old.items) }
    ensures taken { OnOk result (reverse stores.new.items
        ≡ cons_option (option_map Tables.untouched (new_store (doing_seen what.now) tag piece.now))
        (reverse stores.old.items)) }
{
    match (what, piece) {
        (What::Store(..), Some(piece)) => stores.push(Tracked::new(Stored { tag, piece: *piece }))?,
        _ => {}
    }
    Ok(())
}

/// The Insert that is message `n`.
pub(crate) fn held_from(n: u64, head: &Head, piece: &Piece) -> Held
    ensures { result ≡ Tables.held_of n head.now piece.now }
{
    Held {
        number: n,
        tag: head.tag,
        piece: *piece,
    }
}

/// Whether an Insert is of this line.
fn is_in_line(held: &Held, line: u64) -> bool
    ensures { result ≡ Tables.is_in line held.now }
{
    line_at(u128::from(held.piece.addr)) == u128::from(line)
}

/// Drops the Inserts of a line.
pub(crate) fn drop_line(inserts: &mut Vec<Held>, line: u64)
    ensures { reverse inserts.new.items
        ≡ filter (λ e. not (Tables.is_in line e)) (reverse inserts.old.items) }
{
    inserts.retain(|held| !is_in_line(held, line));
}

/// The byte that waits in a line at x: that of the latest Insert that has one.
pub(crate) fn waiting_byte(inserts: &[Held], line: u64, x: u64) -> Option<u8>
    ensures { result ≡ byte_waiting (filter (Tables.is_in line) (reverse inserts.now)) x }
{
    let mut found = None;
    for held in inserts {
        if is_in_line(held, line) && has_byte(&held.piece, u128::from(x)) {
            found = byte_at(&held.piece, x);
        }
    }
    found
}
