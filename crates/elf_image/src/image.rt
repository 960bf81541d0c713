//! The image: a table of segments and one of RAM over the bytes of the file.

ghost use Rattle.std.specs.Prelude.{◌≡◌, ◌+◌, ◌-◌, ◌≤◌, ◌↔◌, IsTrue, true, Some};
ghost use Rattle.elf_image.specs.Tables.{IsInFile, range_byte, range_holds, range_word};

use crate::ram::Ram;
use crate::range::{Range, locate};
use crate::table::ram_table;
use std::alloc::{AllocError, Global};
use std::marker::Model;
use tandem_base::Extent;

/// The bytes at each address before a run begins, and the address at which it begins. A segment
/// holds bytes of its file and then zeros, RAM holds zeros, and a segment wins over RAM.
#[derive(Debug, Drop)]
pub struct Image {
    entry: u64,
    segments: Vec<Range>,
    rams: Vec<Range>,
    file: Vec<u8>,
}

impl Model for Image {
    ghost use Rattle.elf_image.specs.Images.{ImageOf};
    ghost use Rattle.elf_image.specs.Tables.{image_in, AreTables};

    ghost Value = { ImageOf };

    ghost view = { λ image. image_in image.entry image.segments.items image.rams.items image.file.items };

    ghost invariant = { λ image. AreTables image.entry image.segments.items image.rams.items image.file.items };
}

impl Image {
    ghost use Rattle.std.specs.Prelude.{◌≡◌, ◌%◌, ◌+◌, ◌-◌, ◌^◌, ◌<◌, ◌≤◌, ◌↔◌, ℕ, IsTrue, IsSome, IfSome, IfNone};
    ghost use Rattle.std.specs.Prelude.{IfOk};
    ghost use Rattle.std.specs.List.{All, AllPairs};
    ghost use Rattle.elf_image.specs.Images.{loaded_of, word_at, Holds};
    ghost use Rattle.elf_image.specs.Tables.{EndsBefore, IsInFile, image_over};

    /// The image of a file's segments, which end before each other, and RAM.
    pub(crate) fn over(
        alloc: Global,
        entry: u64,
        segments: Vec<Range>,
        file: &[u8],
        rams: &[Ram],
    ) -> Result<Image, AllocError>
        requires aligned { entry % 4 ≡ 0 }
        requires apart { AllPairs EndsBefore segments.items }
        requires in_file { All (IsInFile file.now) segments.items }
        ensures { IfOk result (λ image. loaded_of image
            ≡ loaded_of (image_over entry segments.items file.now rams.now)) }
    {
        let rams = ram_table(alloc, rams)?;
        let file = Vec::from_slice(alloc, file)?;
        Ok(Image {
            entry,
            segments,
            rams,
            file,
        })
    }

    /// The address at which a run begins, a multiple of 4.
    pub fn entry(&self) -> u64
        ensures value { result ≡ self.now.entry }
        ensures aligned { result % 4 ≡ 0 }
    {
        self.entry
    }

    /// The byte at an address. None exactly where no range holds it.
    pub fn byte(&self, addr: u64) -> Option<u8>
        ensures { result ≡ (loaded_of self.now).byte_at addr }
    {
        match locate(&self.segments, addr) {
            Some(range) => Some(file_byte(range, &self.file, addr)),
            None => {
                locate(&self.rams, addr)?;
                Some(0)
            }
        }
    }

    /// The word at an address, lowest byte first. None exactly where one of its four bytes is in no
    /// range, or the address is above 2^64 - 4.
    #[tactic(auto, unfolding(crate::specs::Images::word_at))]
    pub fn word(&self, addr: u64) -> Option<u32>
        ensures { result ≡ word_at (loaded_of self.now) addr }
    {
        if addr > u64::MAX - 3 {
            return None;
        }
        match locate(&self.segments, addr) {
            Some(range) if holds_word(range, addr) => Some(file_word(range, &self.file, addr)),
            _ => self.word_by_bytes(addr),
        }
    }

    /// The word at an address, each byte of which may be in a range of its own.
    #[tactic(auto, unfolding(crate::specs::Images::word_at))]
    fn word_by_bytes(&self, addr: u64) -> Option<u32>
        requires { addr ≤ 2 ^ 64 - 4 }
        ensures { result ≡ word_at (loaded_of self.now) addr }
    {
        let first = self.byte(addr)?;
        let second = self.byte(addr + 1)?;
        let third = self.byte(addr + 2)?;
        let fourth = self.byte(addr + 3)?;
        Some(u32::from_le_bytes([first, second, third, fourth]))
    }

    /// Whether every byte of the extent is in a range.
    pub fn holds(&self, extent: &Extent) -> bool
        ensures { IsTrue result ↔ Holds (loaded_of self.now) extent.now }
    {
        let len = u64::from(extent.len);
        let mut held = 0;
        while held < len {
            match self.run_at(extent.addr + held) {
                Some(run) => held += run.min(len - held),
                None => return false,
            }
        }
        true
    }

    /// How many bytes from an address on are in the range that holds it. None where none does.
    fn run_at(&self, addr: u64) -> Option<u64>
        ensures some { IfSome result (λ run. 0 < run) }
        ensures each { IfSome result (λ run. (k : ℕ) → k < run → IsSome ((loaded_of self.now).byte_at (addr + k))) }
        ensures none { IfNone result ((loaded_of self.now).byte_at addr ≡ None) }
    {
        match locate(&self.segments, addr) {
            Some(range) => Some(rest_from(range, addr)),
            None => Some(rest_from(locate(&self.rams, addr)?, addr)),
        }
    }
}

/// How many bytes of a range there are from an address that it holds.
fn rest_from(range: &Range, addr: u64) -> u64
    requires { range_holds addr range.now ≡ true }
    ensures { addr + result ≡ range.now.base + range.now.size }
{
    range.size - (addr - range.base)
}

/// The byte of a range at an address that it holds.
fn file_byte(range: &Range, file: &[u8], addr: u64) -> u8
    requires held { range_holds addr range.now ≡ true }
    requires in_file { IsInFile file.now range.now }
    ensures { result ≡ range_byte file.now range.now addr }
{
    let offset = addr - range.base;
    if offset < range.len {
        file[(range.start + offset) as usize]
    } else {
        0
    }
}

/// Whether the file has four bytes of a range from an address that the range holds.
fn holds_word(range: &Range, addr: u64) -> bool
    requires { range_holds addr range.now ≡ true }
    ensures { IsTrue result ↔ (addr - range.now.base + 4 ≤ range.now.len) }
{
    addr - range.base <= range.len && range.len - (addr - range.base) >= 4
}

/// The word of a range at an address from which the file has four bytes of it.
fn file_word(range: &Range, file: &[u8], addr: u64) -> u32
    requires held { range_holds addr range.now ≡ true }
    requires room { addr - range.now.base + 4 ≤ range.now.len }
    requires in_file { IsInFile file.now range.now }
    ensures { Some result ≡ range_word file.now range.now addr }
{
    let at = (range.start + (addr - range.base)) as usize;
    let mut word = [0; 4];
    word.copy_from_slice(&file[at..at + 4]);
    u32::from_le_bytes(word)
}
