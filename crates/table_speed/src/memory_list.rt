//! Memory beside a plain list of all stores.

ghost use Rattle.std.specs.Prelude.{◌<◌, ◌≤◌, ◌+◌, ◌^◌};

use crate::image::image;
use byte_memory::{Capture, Cell, Foreign, Memory, StoreCapture, Writer};
use elf_image::Image;
use msg_frames::Piece;
use speed_runs::Random;
use std::alloc::{AllocError, Global};
use tandem_base::{Bytes8, Extent, Position};

/// The lowest of the addresses at random: the image begins a little above it.
const LOWEST: u64 = 0x7fff_ffe0;

/// How many stores a list has before it begins anew.
const MOST: usize = 48;

/// A store: its bytes and its writer.
#[derive(Clone, Copy, Debug)]
struct Stored {
    piece: Piece,
    writer: Writer,
}

/// Memory, and the stores to it, the oldest first.
#[derive(Drop)]
struct Beside {
    memory: Memory,
    stores: Vec<Stored>,
}

/// How many answers of calls at random differ from those of the list.
pub(crate) fn differences(alloc: Global, seed: u64, calls: u32) -> Result<u64, AllocError> {
    let image = image(alloc)?;
    let mut random = Random::new(seed);
    let mut beside = Beside::new(alloc);
    let mut count: u64 = 0;
    for number in 0..calls {
        if beside.stores.len() >= MOST {
            beside = Beside::new(alloc);
        }
        if !beside.agrees(&image, &mut random, number)? {
            count = count.wrapping_add(1);
        }
    }
    Ok(count)
}

/// An extent at random.
fn extent(random: &mut Random) -> Option<Extent> {
    Extent::new(LOWEST + random.below(192), (random.below(8) + 1) as u8)
}

/// The position of a message.
fn place(number: u32) -> Position {
    Position {
        message: number,
        insert: number,
    }
}

impl Stored {
    /// The byte that it stored at an address.
    fn byte(&self, addr: u64) -> Option<u8> {
        if addr < self.piece.addr {
            return None;
        }
        let k = addr - self.piece.addr;
        if k < u64::from(self.piece.bytes.len()) {
            Some(self.piece.bytes.byte(k as u8))
        } else {
            None
        }
    }

    /// The lowest address at which it stored a byte of a block.
    fn lowest_in(&self, base: u64, size: u8) -> Option<u64> {
        for k in 0..u64::from(size) {
            let at = base.wrapping_add(k);
            if self.byte(at).is_some() {
                return Some(at);
            }
        }
        None
    }
}

impl Beside {
    /// Nothing was stored yet.
    fn new(alloc: Global) -> Beside {
        Beside {
            memory: Memory::new(alloc),
            stores: Vec::new(alloc),
        }
    }

    /// Makes a call at random, and says whether it answers as the list does.
    fn agrees(
        &mut self,
        image: &Image,
        random: &mut Random,
        number: u32,
    ) -> Result<bool, AllocError> {
        let Some(extent) = extent(random) else {
            return Ok(true);
        };
        match random.below(4) {
            0 => self.store(&extent, random, number),
            1 => Ok(self.sees(image, &extent, number)),
            2 => Ok(self.sees_foreign(image, &extent, random, number)),
            _ => Ok(self.memory.at(image, extent.addr()) == self.cell(image, extent.addr())),
        }
    }

    /// Stores bytes at random.
    fn store(
        &mut self,
        extent: &Extent,
        random: &mut Random,
        number: u32,
    ) -> Result<bool, AllocError> {
        let value = random
            .below(1 << 40)
            .wrapping_mul(0x0101_0101_0101)
            .to_le_bytes();
        let Some(bytes) = Bytes8::new(&value[..extent.len() as usize]) else {
            return Ok(false);
        };
        let piece = Piece {
            addr: extent.addr(),
            bytes,
        };
        let writer = Writer {
            hart: random.below(3) as u8,
            tag: random.below(9),
            place: place(number),
        };
        self.memory.ready(extent.addr())?;
        self.memory
            .ready(extent.addr() + u64::from(extent.len() - 1))?;
        self.memory.store(&piece, &writer);
        self.stores.push(Stored { piece, writer })?;
        Ok(true)
    }

    /// What the list says of a byte.
    fn cell(&self, image: &Image, addr: u64) -> Cell {
        let last = self.latest(addr, None);
        let (value, last) = match last {
            Some((value, writer)) => (value, Some(writer)),
            None => (image.byte(addr).unwrap_or(0), None),
        };
        let other = match last {
            Some(writer) => self.latest(addr, Some(writer.hart)).map(|found| found.1),
            None => None,
        };
        Cell { value, last, other }
    }

    /// The newest store to a byte by a hart that isn't this one.
    fn latest(&self, addr: u64, but: Option<u8>) -> Option<(u8, Writer)> {
        for stored in self.stores.iter().rev() {
            if let Some(value) = stored.byte(addr)
                && Some(stored.writer.hart) != but
            {
                return Some((value, stored.writer));
            }
        }
        None
    }

    /// Whether a load sees what the list says.
    fn sees(&self, image: &Image, extent: &Extent, number: u32) -> bool {
        let seen = Capture::take(&self.memory, image, extent, place(number));
        seen.place == place(number) && self.is_seen(image, extent, &seen)
    }

    /// Whether a capture has what the list says.
    fn is_seen(&self, image: &Image, extent: &Extent, seen: &Capture) -> bool {
        let crosses = extent.addr() % 8 + u64::from(extent.len()) > 8;
        let base = if crosses {
            extent.addr()
        } else {
            extent.addr() - extent.addr() % 8
        };
        let size = if crosses { extent.len() } else { 8 };
        for k in 0..8u8 {
            let cell = if k < size {
                self.cell(image, base.wrapping_add(u64::from(k)))
            } else {
                Cell {
                    value: 0,
                    last: None,
                    other: None,
                }
            };
            let same = seen.values[k as usize] == cell.value && seen.last[k as usize] == cell.last;
            if !same {
                return false;
            }
        }
        seen.base == base
    }

    /// Whether a store that isn't of the merge buffer sees what the list says.
    fn sees_foreign(
        &self,
        image: &Image,
        extent: &Extent,
        random: &mut Random,
        number: u32,
    ) -> bool {
        let hart = random.below(3) as u8;
        let block = match random.below(5) {
            0 => 0,
            1 => 8,
            2 => 16,
            3 => 32,
            _ => 64,
        };
        let seen = StoreCapture::take(&self.memory, image, extent, place(number), hart, block);
        let mut same = self.is_seen(image, extent, &seen.seen);
        for k in 0..8u8 {
            let at = seen.seen.base.wrapping_add(u64::from(k));
            let is_there = seen.seen.last[k as usize].is_some();
            let other = self.cell(image, at).other;
            same = same && seen.other[k as usize] == if is_there { other } else { None };
        }
        same && seen.foreign == self.foreign(extent.addr(), hart, block)
    }

    /// The newest store by another hart to a block, and its lowest address there.
    fn foreign(&self, addr: u64, hart: u8, block: u8) -> Option<Foreign> {
        let base = addr - addr % u64::from(block.max(1));
        for stored in self.stores.iter().rev() {
            if stored.writer.hart != hart
                && let Some(at) = stored.lowest_in(base, block)
            {
                return Some(Foreign {
                    at,
                    writer: stored.writer,
                });
            }
        }
        None
    }
}
