//! The window of a hart beside plain lists of its reports.

ghost use Rattle.std.specs.Prelude.{◌<◌, ◌≤◌, ◌+◌, ◌^◌};

use crate::reporting::Reported;
use byte_memory::{Capture, StoreCapture};
use msg_frames::Piece;
use speed_runs::Random;
use std::alloc::{AllocError, Global};
use tag_window::{Counting, Early, Read};
use tandem_base::{Bytes8, Extent, Position, Took};

/// How many reports there may be.
const CAPACITY: u32 = 12;

/// The lowest of the addresses at random.
const LOWEST: u64 = 0x8000_1000;

/// A Read with its tag.
#[derive(Clone, Copy, Debug)]
struct TaggedRead {
    tag: u64,
    read: Read,
}

/// An early Bypass with its tag.
#[derive(Clone, Copy, Debug)]
struct TaggedBypass {
    tag: u64,
    early: Early,
}

/// A window, and its reports, the oldest first.
#[derive(Drop)]
struct Beside {
    window: Reported,
    reads: Vec<TaggedRead>,
    bypasses: Vec<TaggedBypass>,
}

/// How many answers of calls at random differ from those of the lists.
pub(crate) fn differences(alloc: Global, seed: u64, calls: u32) -> Result<u64, AllocError> {
    let mut random = Random::new(seed);
    let mut beside = Beside {
        window: Reported::new(alloc, CAPACITY)?,
        reads: Vec::new(alloc),
        bypasses: Vec::new(alloc),
    };
    let mut count: u64 = 0;
    for _ in 0..calls {
        if !beside.agrees(&mut random)? {
            count = count.wrapping_add(1);
        }
    }
    Ok(count)
}

/// An extent at random.
fn extent(random: &mut Random) -> Option<Extent> {
    Extent::new(LOWEST + random.below(8), (random.below(8) + 1) as u8)
}

/// A piece at random.
fn piece(random: &mut Random) -> Option<Piece> {
    let extent = extent(random)?;
    let value = random.below(1 << 40).wrapping_mul(0x0101_0101_0101);
    let bytes = Bytes8::new(&value.to_le_bytes()[..extent.len() as usize])?;
    Some(Piece {
        addr: extent.addr(),
        bytes,
    })
}

/// What a report saw, with values at random.
fn seen(random: &mut Random) -> Capture {
    Capture {
        place: Position {
            message: 0,
            insert: 0,
        },
        base: LOWEST,
        values: random.below(1 << 40).to_le_bytes(),
        last: [None; 8],
    }
}

/// Whether a piece has the byte at an address.
fn has(piece: &Piece, addr: u64) -> bool {
    piece.addr <= addr && addr - piece.addr < u64::from(piece.bytes.len())
}

/// Whether two pieces with what was seen are the same.
fn same(a: &Piece, b: &Piece, x: &Capture, y: &Capture) -> bool {
    a == b && x.place == y.place && x.values == y.values
}

/// The earlier of two places, where there are two.
fn earlier(a: Option<Position>, b: Position) -> Option<Position> {
    match a {
        Some(place) => Some(place.min(b)),
        None => Some(b),
    }
}

impl Beside {
    /// Makes a call at random, and says whether it answers as the lists do.
    fn agrees(&mut self, random: &mut Random) -> Result<bool, AllocError> {
        let tag = random.below(9);
        match random.below(16) {
            0..=4 => self.reads(tag, random),
            5 | 6 => self.bypasses(tag, random),
            7 => Ok(self.retires(tag)),
            8 => Ok(self.squashes(tag)),
            9..=11 => Ok(self.counts(tag, random)),
            12 => Ok(self.counts_at(tag, LOWEST + random.below(16))),
            13 => Ok(self.looks(tag)),
            14 => Ok(self.strays(tag)),
            _ => Ok(self.opens()),
        }
    }

    /// Whether there is no room for one more.
    fn is_full(&self) -> bool {
        self.reads.len().wrapping_add(self.bypasses.len()) >= CAPACITY as usize
    }

    /// A Read at random.
    fn reads(&mut self, tag: u64, random: &mut Random) -> Result<bool, AllocError> {
        let Some(piece) = piece(random) else {
            return Ok(false);
        };
        let mut seen = seen(random);
        let took = self.window.read(tag, &piece, &mut seen);
        if self.is_full() {
            return Ok(took == Some(Took::Full(CAPACITY)));
        }
        let read = Read { piece, seen };
        self.reads.push(TaggedRead { tag, read })?;
        Ok(took == Some(Took::Yes))
    }

    /// An early Bypass at random.
    fn bypasses(&mut self, tag: u64, random: &mut Random) -> Result<bool, AllocError> {
        let Some(piece) = piece(random) else {
            return Ok(false);
        };
        let mut seen = StoreCapture {
            seen: seen(random),
            other: [None; 8],
            foreign: None,
        };
        let took = self.window.early(tag, &piece, &mut seen);
        if self.is_full() {
            return Ok(took == Some(Took::Full(CAPACITY)));
        }
        let early = Early { piece, seen };
        self.bypasses.push(TaggedBypass { tag, early })?;
        Ok(took == Some(Took::Yes))
    }

    /// A Retire.
    fn retires(&mut self, tag: u64) -> bool {
        self.window.retire(tag);
        self.reads.retain(|read| tag < read.tag);
        self.bypasses.retain(|bypass| bypass.tag != tag);
        self.opens()
    }

    /// A Squash.
    fn squashes(&mut self, from: u64) -> bool {
        self.window.squash(from);
        self.reads.retain(|read| read.tag < from);
        self.opens()
    }

    /// The place in the list of the Read that counts for a byte.
    fn counting(&self, tag: u64, addr: u64) -> Option<usize> {
        let mut found = None;
        let mut at: usize = 0;
        for read in self.reads.iter() {
            if read.tag == tag && has(&read.read.piece, addr) {
                found = Some(at);
            }
            at = at.wrapping_add(1);
        }
        found
    }

    /// Whether the same Read counts for a byte as in the list.
    fn counts_at(&self, tag: u64, addr: u64) -> bool {
        let due = match self.counting(tag, addr) {
            Some(at) => self.reads.get(at),
            None => None,
        };
        match (self.window.tags().counting_at(tag, addr), due) {
            (Some(a), Some(b)) => same(&a.piece, &b.read.piece, &a.seen, &b.read.seen),
            (None, None) => true,
            _ => false,
        }
    }

    /// Whether the parts of a load at random are those of the list.
    fn counts(&self, tag: u64, random: &mut Random) -> bool {
        let Some(extent) = extent(random) else {
            return false;
        };
        self.window.tags().counting(tag, &extent) == self.parts(tag, &extent)
    }

    /// The parts of a load by the list.
    fn parts(&self, tag: u64, extent: &Extent) -> Counting {
        let mut parts = [0; 8];
        for k in 0..extent.len() {
            let at = extent.addr().wrapping_add(u64::from(k));
            match self.counting(tag, at) {
                Some(read) => parts[k as usize] = self.part(tag, extent, read),
                None => return Counting::Missing(at),
            }
        }
        Counting::All(parts)
    }

    /// The first byte of a load that counts from a Read.
    fn part(&self, tag: u64, extent: &Extent, read: usize) -> u8 {
        for k in 0..extent.len() {
            if self.counting(tag, extent.addr().wrapping_add(u64::from(k))) == Some(read) {
                return k;
            }
        }
        8
    }

    /// Whether the early Bypass of a tag is that of the list.
    fn looks(&self, tag: u64) -> bool {
        let mut due = None;
        for bypass in self.bypasses.iter() {
            if bypass.tag == tag {
                due = Some(bypass.early);
            }
        }
        match (self.window.tags().early_of(tag), due) {
            (Some(a), Some(b)) => same(&a.piece, &b.piece, &a.seen.seen, &b.seen.seen),
            (None, None) => true,
            _ => false,
        }
    }

    /// Whether the lowest early Bypass below a tag is that of the list.
    fn strays(&self, below: u64) -> bool {
        let mut due = None;
        for bypass in self.bypasses.iter() {
            let is_lower = match due {
                Some(lowest) => bypass.tag < lowest,
                None => bypass.tag < below,
            };
            if is_lower {
                due = Some(bypass.tag);
            }
        }
        self.window.tags().stray(below) == due
    }

    /// Whether there are as many reports as in the lists, and the oldest is the same.
    fn opens(&self) -> bool {
        let tags = self.window.tags();
        let count = self.reads.len().wrapping_add(self.bypasses.len());
        tags.live() as usize == count && tags.oldest() == self.oldest()
    }

    /// The oldest place of the lists.
    fn oldest(&self) -> Option<Position> {
        let mut oldest = None;
        for read in self.reads.iter() {
            oldest = earlier(oldest, read.read.seen.place);
        }
        for bypass in self.bypasses.iter() {
            oldest = earlier(oldest, bypass.early.seen.seen.place);
        }
        oldest
    }
}
