//! Why a file is no image, want of memory apart.

use elf_image::TooLarge;

/// Why a file is no image.
#[derive(Clone, Copy, Debug, PartialEq, Eq)]
pub enum FileFault {
    /// Fewer than 64 bytes, or no ELF magic.
    NotElf,
    /// Not ELF64, little-endian, version 1.
    Class,
    /// Not an executable.
    Kind,
    /// Not for RISC-V.
    Machine,
    /// The field of the file header at this offset is wrong.
    Headers(u16),
    /// The loaded segment at this place in the program header table is wrong.
    Segment(u16),
    /// The loaded segments at these two places in the program header table share an address.
    Overlap(u16, u16),
    /// The file or what it describes is above a limit.
    TooLarge(TooLarge),
}
