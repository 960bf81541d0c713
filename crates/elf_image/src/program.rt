//! The program headers of an ELF64 file.

ghost use Rattle.std.specs.Prelude.{◌≡◌, ◌+◌, ◌*◌, ◌^◌, ◌<◌, ◌≤◌, true, IfOk, length, sum_by};
ghost use Rattle.std.specs.List.{All, find};
ghost use Rattle.std.specs.Option.{option_map};
ghost use Rattle.tandem_base.specs.FirstFault.{passed};
ghost use Rattle.elf_image.specs.Elf.{header_count, table_offset, has_table, program_header, shares_address, loadable};
ghost use Rattle.elf_image.specs.Elf.{overlap_fault, segment_fault};

use crate::fault::ImageFault;
use crate::header::{ENTRY_SIZE, header_count, table_offset};
use tandem_base::{u32_at, u64_at};
use std::alloc::{AllocError, Global};

/// The type of a segment that is loaded, PT_LOAD.
const LOAD: u32 = 1;

/// A program header: its place in the table, and the fields that say what is loaded.
#[derive(Clone, Copy, Debug)]
pub struct ProgramHeader {
    /// The place in the table, from 0.
    pub index: u16,
    /// The type of the segment, p_type.
    pub kind: u32,
    /// The offset of its bytes in the file, p_offset.
    pub offset: u64,
    /// Its physical address, p_paddr.
    pub address: u64,
    /// How many bytes of it stand in the file, p_filesz.
    pub file_size: u64,
    /// How many bytes it has in memory, p_memsz.
    pub size: u64,
}

impl ProgramHeader {
    ghost use Rattle.std.specs.Prelude.{◌≡◌, ◌<◌};
    ghost use Rattle.elf_image.specs.Elf.{is_loadable, is_misplaced, shares_address};

    /// Whether it loads a segment that takes memory.
    fn is_loadable(&self) -> bool
        ensures { result ≡ is_loadable self.now }
    {
        self.kind == LOAD && self.size > 0
    }

    /// Whether its file bytes pass the file's end or are more than the segment, or the segment
    /// passes 2^64.
    fn is_misplaced(&self, file_len: u64) -> bool
        ensures { result ≡ is_misplaced file_len self.now }
    {
        let file_end = u128::from(self.offset) + u128::from(self.file_size);
        let end = u128::from(self.address) + u128::from(self.size);
        (self.file_size > 0 && file_end > u128::from(file_len))
            || self.file_size > self.size
            || end > 1 << 64
    }

    /// Whether the two segments share an address.
    fn shares_address(&self, other: &ProgramHeader) -> bool
        ensures { result ≡ shares_address self.now other.now }
    {
        let end = u128::from(self.address) + u128::from(self.size);
        let other_end = u128::from(other.address) + u128::from(other.size);
        u128::from(self.address) < other_end && u128::from(other.address) < end
    }
}

/// The program header at a place of the table.
fn program_header(bytes: &[u8], index: u16) -> ProgramHeader
    requires inside { table_offset bytes.now + 56 * index + 56 ≤ length bytes.now }
    requires whole { 64 ≤ length bytes.now }
    ensures { result ≡ program_header bytes.now index }
{
    let at = (table_offset(bytes) + ENTRY_SIZE * u64::from(index)) as usize;
    ProgramHeader {
        index,
        kind: u32_at(at, bytes),
        offset: u64_at(at + 8, bytes),
        address: u64_at(at + 24, bytes),
        file_size: u64_at(at + 32, bytes),
        size: u64_at(at + 40, bytes),
    }
}

/// The program headers that load a segment, in the table's order.
pub fn loadable(alloc: Global, bytes: &[u8]) -> Result<Vec<ProgramHeader>, AllocError>
    requires whole { 64 ≤ length bytes.now }
    requires table { has_table bytes.now ≡ true }
    ensures found { IfOk result (λ found. found.items ≡ loadable bytes.now) }
    ensures sized { IfOk result (λ found. All (λ load. 0 < load.size) found.items) }
{
    let mut found = Vec::new(alloc);
    for index in 0..header_count(bytes) {
        let header = program_header(bytes, index);
        if header.is_loadable() {
            found.push(header)?;
        }
    }
    Ok(found)
}

/// How many bytes the segments have together.
pub fn load_size(loads: &[ProgramHeader]) -> u128
    ensures value { result ≡ sum_by (λ load. load.size) loads.now }
    ensures bound { result < 2 ^ 127 }
{
    let mut size = 0u128;
    for load in loads {
        size += u128::from(load.size);
    }
    size
}

/// The fault of the first segment that is misplaced.
pub fn check_segments(loads: &[ProgramHeader], file_len: u64) -> Result<(), ImageFault>
    ensures { result ≡ passed (segment_fault file_len loads.now) }
{
    for load in loads {
        if load.is_misplaced(file_len) {
            return Err(ImageFault::Segment(load.index));
        }
    }
    Ok(())
}

/// The fault of the first segment that shares an address with a later one.
pub fn check_overlap(loads: &[ProgramHeader]) -> Result<(), ImageFault>
    ensures { result ≡ passed (overlap_fault loads.now) }
{
    for (place, load) in loads.iter().enumerate() {
        if let Some(other) = meeting(load, &loads[place + 1..]) {
            return Err(ImageFault::Overlap(load.index, other));
        }
    }
    Ok(())
}

/// The index of the first of these segments that shares an address with one.
fn meeting(load: &ProgramHeader, others: &[ProgramHeader]) -> Option<u16>
    ensures { result ≡ option_map (λ other. other.index) (find (shares_address load.now) others.now) }
{
    for other in others {
        if load.shares_address(other) {
            return Some(other.index);
        }
    }
    None
}
