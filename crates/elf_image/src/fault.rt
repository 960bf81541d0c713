//! Why a file is no image.

ghost use Rattle.std.specs.Prelude.{◌≡◌};
ghost use Rattle.elf_image.specs.declared.fault.ImageFault.TheVariants.{Memory};

use std::alloc::AllocError;

/// Why a file is no image. Where several stand, the first in this order is named, TooLarge by the
/// file's length before all others, and the other forms of TooLarge before Overlap.
#[derive(Clone, Copy, Debug, PartialEq, Eq)]
pub enum ImageFault {
    /// Fewer than 64 bytes, or no ELF magic.
    NotElf,
    /// The class, the data encoding or the version isn't ELF64, little-endian, 1.
    Class,
    /// The file type isn't ET_EXEC.
    Kind,
    /// The machine isn't RISC-V.
    Machine,
    /// The field of the file header at this offset is wrong: 24, the entry isn't a multiple of 4;
    /// 54, the entry size of the program header table isn't 56; 32, the table passes the file's
    /// end.
    Headers(u16),
    /// The loaded segment at this place in the program header table has file bytes past the file's
    /// end, more file bytes than its size, or addresses past 2^64.
    Segment(u16),
    /// The loaded segments at these two places in the program header table share an address.
    Overlap(u16, u16),
    /// The file or what it describes is above a limit.
    TooLarge(TooLarge),
    /// An allocation was refused.
    Memory,
}

/// A limit that is passed, with the count that passes it.
#[derive(Clone, Copy, Debug, PartialEq, Eq)]
pub enum TooLarge {
    /// The file's length, above 2^28 bytes: always one byte past the limit.
    File(u64),
    /// How many segments and RAM ranges there are, above 64.
    Ranges(u64),
    /// The sum of their sizes, above 2^40 bytes.
    Sum(u128),
}

impl From<AllocError> for ImageFault {
    ghost from_gives = { λ _ found. found ≡ Memory };

    fn from(_error: AllocError) -> ImageFault {
        ImageFault::Memory
    }
}
