//! The limits of an image.

ghost use Rattle.std.specs.Prelude.{◌≡◌, ◌^◌, ◌<◌, ◌≤◌, OnOk, length, sum_by};
ghost use Rattle.tandem_base.specs.FirstFault.{passed};
ghost use Rattle.elf_image.specs.declared.limits.TheConstants.{MOST_FILE_BYTES};
ghost use Rattle.elf_image.specs.Faults.{file_fault, limit_fault};

use crate::fault::{ImageFault, TooLarge};
use crate::ram::Ram;

/// The most bytes that an image file may have: 2^28.
pub const MOST_FILE_BYTES: usize = 1 << 28;

/// The most segments and RAM ranges that an image may have.
const MOST_RANGES: u64 = 64;

/// The most bytes that they may have together: 2^40.
const MOST_BYTES: u128 = 1 << 40;

/// The most bytes of a file are 2^28: a law, with nothing to do.
pub fn most_file_bytes_has_its_number()
    ensures { MOST_FILE_BYTES ≡ 2 ^ 28 }
{}

/// The fault of a file that is too long.
pub fn check_file(bytes: &[u8]) -> Result<(), ImageFault>
    ensures fault { result ≡ passed (file_fault bytes.now) }
    ensures short { OnOk result (length bytes.now ≤ 2 ^ 28) }
{
    if bytes.len() > MOST_FILE_BYTES {
        let read = MOST_FILE_BYTES as u64 + 1;
        return Err(ImageFault::TooLarge(TooLarge::File(read)));
    }
    Ok(())
}

/// The fault of too many ranges, or of too many bytes in them.
pub fn check_limits(count: u64, size: u128) -> Result<(), ImageFault>
    ensures { result ≡ passed (limit_fault count size) }
{
    if count > MOST_RANGES {
        return Err(ImageFault::TooLarge(TooLarge::Ranges(count)));
    }
    if size > MOST_BYTES {
        return Err(ImageFault::TooLarge(TooLarge::Sum(size)));
    }
    Ok(())
}

/// How many bytes RAM has, counted once for each range.
pub fn ram_size(rams: &[Ram]) -> u128
    ensures value { result ≡ sum_by (λ ram. ram.size) rams.now }
    ensures bound { result < 2 ^ 127 }
{
    let mut size = 0u128;
    for ram in rams {
        size += u128::from(ram.size);
    }
    size
}
