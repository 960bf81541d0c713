//! What a report saw of memory.

ghost use Rattle.std.specs.Prelude.{◌≡◌, ◌+◌, ◌%◌, ◌^◌, ◌<◌, ◌≤◌, ℕ, None, Some, slice_index_or};
ghost use Rattle.std.specs.Prelude.{option_copied, option_map};
ghost use Rattle.tandem_base.specs.Granules.{IsGranule};
ghost use Rattle.byte_memory.specs.Captures.{FindsForeign, block_base, capture_base, capture_size};
ghost use Rattle.byte_memory.specs.Captures.{is_later, other_from};
ghost use Rattle.byte_memory.specs.Memory.{line_at};

use crate::line::Line;
use crate::memory::Memory;
use crate::writer::{Cell, Writer};
use elf_image::Image;
use tandem_base::{Extent, Position};

/// What a load saw of memory: byte k is the one at `base + k`, with its value and its last writer.
/// The bytes are those of the aligned doubleword that holds the load, or the load's own where it
/// crosses one; past its own bytes there are then zeros without a writer.
#[derive(Clone, Copy, Debug)]
pub struct Capture {
    pub place: Position,
    pub base: u64,
    pub values: [u8; 8],
    pub last: [Option<Writer>; 8],
}

/// The latest store by another hart to a block of memory, and the lowest address of the block that
/// it wrote.
#[derive(Clone, Copy, Debug, PartialEq, Eq)]
pub struct Foreign {
    pub at: u64,
    pub writer: Writer,
}

/// What a store that is not of the merge buffer saw of memory before its bytes were stored: beside
/// what a load sees, for each byte the last writer of another hart than that of its last writer,
/// and the latest store by another hart than its own to the block that holds its first byte.
#[derive(Clone, Copy, Debug)]
pub struct StoreCapture {
    pub seen: Capture,
    pub other: [Option<Writer>; 8],
    pub foreign: Option<Foreign>,
}

impl Capture {
    ghost use Rattle.std.specs.Prelude.{◌≡◌, ◌<◌, ℕ, None, slice_index, slice_index_or};
    ghost use Rattle.elf_image.specs.Images.{loaded_of};
    ghost use Rattle.byte_memory.specs.Captures.{Sees, cell_from};

    /// What memory, over the initial bytes of an image, holds of an extent, seen at a place.
    pub fn take(memory: &Memory, image: &Image, extent: &Extent, place: Position) -> Capture
        ensures place { result.place ≡ place }
        ensures seen { Sees memory.now (loaded_of image.now) extent.now result }
    {
        let mut capture = Capture {
            place,
            base: 0,
            values: [0; 8],
            last: [None; 8],
        };
        capture.retake(memory, image, extent, place);
        capture
    }

    /// Makes this the capture that `take` gives, in place.
    pub fn retake(&mut self, memory: &Memory, image: &Image, extent: &Extent, place: Position)
        ensures place { self.new.place ≡ place }
        ensures seen { Sees memory.now (loaded_of image.now) extent.now self.new }
    {
        self.place = place;
        let offset = extent.addr % 8;
        if offset + u64::from(extent.len) <= 8 {
            self.base = extent.addr - offset;
            memory.see(image, self.base, &mut self.values, &mut self.last);
        } else {
            self.base = extent.addr;
            self.see_bytes(memory, image, extent);
        }
    }

    /// Takes the bytes of an extent, one by one.
    fn see_bytes(&mut self, memory: &Memory, image: &Image, extent: &Extent)
        ensures place { self.new.place ≡ self.old.place }
        ensures base { self.new.base ≡ self.old.base }
        ensures value { (k : ℕ) → k < 8 → slice_index self.new.values k
            ≡ (cell_from memory.now (loaded_of image.now) extent.now.addr extent.now.len k).value }
        ensures last { (k : ℕ) → k < 8 → slice_index_or self.new.last k None
            ≡ (cell_from memory.now (loaded_of image.now) extent.now.addr extent.now.len k).last }
    {
        for k in 0..8u8 {
            let cell = if k < extent.len {
                memory.at(image, extent.addr + u64::from(k))
            } else {
                Cell {
                    value: 0,
                    last: None,
                    other: None,
                }
            };
            self.values[k as usize] = cell.value;
            self.last[k as usize] = cell.last;
        }
    }
}

impl StoreCapture {
    ghost use Rattle.std.specs.Prelude.{◌≡◌, ◌<◌, ℕ, None, slice_index_or};
    ghost use Rattle.elf_image.specs.Images.{loaded_of};
    ghost use Rattle.tandem_base.specs.Granules.{IsGranule};
    ghost use Rattle.byte_memory.specs.Captures.{Sees, FindsForeign, block_base, captured};

    /// What memory, over the initial bytes of an image, holds of an extent, seen at a place by a
    /// hart, with the latest store by another hart to the aligned block of this many bytes.
    pub fn take(
        memory: &Memory,
        image: &Image,
        extent: &Extent,
        place: Position,
        hart: u8,
        block: u8,
    ) -> StoreCapture
        // The granule of a stream is one of these by the form of its Open.
        requires { IsGranule block }
        ensures place { result.seen.place ≡ place }
        ensures seen { Sees memory.now (loaded_of image.now) extent.now result.seen }
        ensures other { (k : ℕ) → k < 8 → slice_index_or result.other k None
            ≡ (captured memory.now (loaded_of image.now) extent.now k).other }
        ensures foreign { FindsForeign memory.now hart (block_base extent.now.addr block) block result.foreign }
    {
        StoreCapture {
            seen: Capture::take(memory, image, extent, place),
            other: others(memory, extent),
            foreign: latest_foreign(memory, extent.addr, hart, block),
        }
    }
}

/// For each byte of a capture of the extent, the last writer of another hart than its last one's.
fn others(memory: &Memory, extent: &Extent) -> [Option<Writer>; 8]
    ensures { (k : ℕ) → k < 8 → slice_index_or result k None
        ≡ other_from memory.now (capture_base extent.now) (capture_size extent.now) k }
{
    let offset = extent.addr % 8;
    let (base, size) = if offset + u64::from(extent.len) <= 8 {
        (extent.addr - offset, 8)
    } else {
        (extent.addr, extent.len)
    };
    let mut other = [None; 8];
    for k in 0..size {
        other[k as usize] = memory.other_at(base + u64::from(k));
    }
    other
}

/// The latest store by another hart to the block of an address, None where the block is empty.
fn latest_foreign(memory: &Memory, addr: u64, hart: u8, block: u8) -> Option<Foreign>
    requires { IsGranule block }
    ensures { FindsForeign memory.now hart (block_base addr block) block result }
{
    if block == 0 {
        return None;
    }
    let base = base_of(addr, block);
    match memory.line(base) {
        Some(line) => latest_of_line(memory, line, base, hart, block),
        None => None,
    }
}

/// The latest store by another hart to a block of a line.
fn latest_of_line(memory: &Memory, line: &Line, base: u64, hart: u8, block: u8) -> Option<Foreign>
    requires there { line_at memory.now base ≡ Some line.now }
    requires within { base % 64 + block ≤ 64 }
    requires room { base + block ≤ 2 ^ 64 }
    ensures { FindsForeign memory.now hart base block result }
{
    let mut found = None;
    for k in 0..block {
        let at = base + u64::from(k);
        let writer = line.foreign((at % 64) as usize, hart);
        if is_later(&found, writer) {
            found = told(at, writer);
        }
    }
    found
}

/// Where the block of an address begins.
fn base_of(addr: u64, block: u8) -> u64
    requires some { 0 < block }
    requires size { IsGranule block }
    ensures value { result ≡ block_base addr block }
    ensures room { result + block ≤ 2 ^ 64 }
    ensures line { result % 64 + block ≤ 64 }
{
    addr - addr % u64::from(block)
}

/// Whether there is a writer, and it comes after what was found.
fn is_later(found: &Option<Foreign>, writer: Option<&Writer>) -> bool
    ensures { result ≡ is_later found.now (option_copied writer.entry) }
{
    match (found, writer) {
        (_, None) => false,
        (None, Some(_)) => true,
        (Some(before), Some(writer)) => before.writer.place < writer.place,
    }
}

/// The store of a writer, at an address that it wrote.
fn told(at: u64, writer: Option<&Writer>) -> Option<Foreign>
    ensures { result ≡ option_map (λ w. record { at = at; writer = w }) (option_copied writer.entry) }
{
    match writer {
        Some(writer) => Some(Foreign {
            at,
            writer: *writer,
        }),
        None => None,
    }
}
