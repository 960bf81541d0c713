//! A merge buffer beside a plain list of what waits.

use crate::merging::Numbered;
use merge_buffer::{Difference, Drain, Part};
use msg_frames::{LineWrite, Piece};
use speed_runs::Random;
use std::alloc::{AllocError, Global};
use tandem_base::{Bytes8, Took};

/// How many Inserts may wait.
const CAPACITY: u32 = 12;

/// The lowest of the lines at random.
const LOWEST: u64 = 0x8000_1000;

/// A buffer, and the Inserts that wait, the oldest first.
#[derive(Drop)]
struct Beside {
    buffer: Numbered,
    waiting: Vec<Part>,
}

/// How many answers of calls at random differ from those of the list.
pub(crate) fn differences(alloc: Global, seed: u64, calls: u32) -> Result<u64, AllocError> {
    let mut random = Random::new(seed);
    let mut beside = Beside {
        buffer: Numbered::new(alloc, CAPACITY)?,
        waiting: Vec::new(alloc),
    };
    let mut count: u64 = 0;
    for _ in 0..calls {
        let agrees = match random.below(4) {
            0 => beside.writes(&mut random),
            _ => beside.inserts(&mut random)?,
        };
        if !agrees {
            count = count.wrapping_add(1);
        }
    }
    Ok(count)
}

/// The byte of a piece at an address.
fn byte_at(piece: &Piece, addr: u64) -> Option<u8> {
    if addr < piece.addr {
        return None;
    }
    let k = addr - piece.addr;
    if k < u64::from(piece.bytes.len()) {
        Some(piece.bytes.byte(k as u8))
    } else {
        None
    }
}

/// The byte of a Write at an offset of its line.
fn reported(write: &LineWrite, k: u8) -> Option<u8> {
    if k < 64 && write.mask >> k & 1 == 1 {
        Some(write.bytes[k as usize])
    } else {
        None
    }
}

impl Beside {
    /// An Insert at random: whether it answers as the list does.
    fn inserts(&mut self, random: &mut Random) -> Result<bool, AllocError> {
        let len = random.below(8) + 1;
        let value = random
            .below(1 << 40)
            .wrapping_mul(0x0101_0101_0101)
            .to_le_bytes();
        let Some(bytes) = Bytes8::new(&value[..len as usize]) else {
            return Ok(false);
        };
        let addr = LOWEST + random.below(3) * 64 + random.below(65 - len);
        let part = Part {
            tag: random.below(1000),
            piece: Piece { addr, bytes },
            number: self.buffer.next(),
        };
        let due = if self.waiting.len() >= CAPACITY as usize {
            Took::Full(CAPACITY)
        } else {
            self.waiting.push(part)?;
            Took::Yes
        };
        let took = self.buffer.insert(part.tag, &part.piece);
        Ok(took == Some(due) && self.buffer.count() == self.waiting.len())
    }

    /// The byte that waits at an address.
    fn merged(&self, addr: u64) -> Option<u8> {
        for part in self.waiting.iter().rev() {
            let byte = byte_at(&part.piece, addr);
            if byte.is_some() {
                return byte;
            }
        }
        None
    }

    /// The Write of all that waits on a line.
    fn due(&self, line: u64) -> LineWrite {
        let mut bytes = [0; 64];
        let mut mask = 0;
        for k in 0..64u8 {
            if let Some(byte) = self.merged(line.wrapping_add(u64::from(k))) {
                bytes[k as usize] = byte;
                mask |= 1 << k;
            }
        }
        LineWrite { line, mask, bytes }
    }

    /// Where a Write first differs from what waits.
    fn difference(&self, write: &LineWrite) -> Option<Difference> {
        for k in 0..64u8 {
            let at = write.line.wrapping_add(u64::from(k));
            let want = self.merged(at);
            let got = reported(write, k);
            if want != got {
                return Some(Difference { at, want, got });
            }
        }
        None
    }

    /// A Write at random: whether it answers as the list does.
    fn writes(&mut self, random: &mut Random) -> bool {
        let mut write = self.due(LOWEST + random.below(3) * 64);
        let k = random.below(64) as u8;
        match random.below(4) {
            0 => write.mask ^= 1 << k,
            1 => write.bytes[k as usize] ^= 1,
            _ => {}
        }
        let answer = self.buffer.write(&write);
        match self.difference(&write) {
            Some(difference) => answer == Some(Drain::Mismatch(difference)) && self.is_kept(),
            None => self.drains(write.line, answer),
        }
    }

    /// Whether all that the list has still waits.
    fn is_kept(&self) -> bool {
        self.buffer.count() == self.waiting.len()
    }

    /// Whether a line's Inserts were drained, in their order; then they leave the list.
    fn drains(&mut self, line: u64, answer: Option<Drain>) -> bool {
        let mut count: u32 = 0;
        let mut same = true;
        for part in self.waiting.iter() {
            if part.piece.addr / 64 == line / 64 {
                same = same && self.buffer.part(count) == Some(*part);
                count = count.wrapping_add(1);
            }
        }
        self.waiting
            .retain(|part| part.piece.addr / 64 != line / 64);
        let ends = self.buffer.part(count).is_none();
        same && ends && answer == Some(Drain::Parts(count)) && self.is_kept()
    }
}
