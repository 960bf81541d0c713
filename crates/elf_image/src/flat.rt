//! Images from flat files.

ghost use Rattle.std.specs.Prelude.{◌≡◌, length, map, IfOk};
ghost use Rattle.tandem_base.specs.FirstFault.{passed};
ghost use Rattle.std.specs.List.{All, AllPairs};
ghost use Rattle.elf_image.specs.Flat.{flat_end_fault, flat_segments};
ghost use Rattle.elf_image.specs.Tables.{EndsBefore, IsInFile, segment_in};

use crate::fault::ImageFault;
use crate::image::Image;
use crate::limits::{check_file, check_limits, ram_size};
use crate::ram::Ram;
use crate::range::Range;
use std::alloc::{AllocError, Global};

impl Image {
    ghost use Rattle.std.specs.Prelude.{◌≡◌, ◌%◌};
    ghost use Rattle.std.specs.List.{All};
    ghost use Rattle.elf_image.specs.Faults.{Reads};
    ghost use Rattle.elf_image.specs.Flat.{flat_of};
    ghost use Rattle.elf_image.specs.Rams.{IsRam};

    /// The image of a flat file: its bytes from `base` up, where the run begins, with RAM besides.
    /// The first fault where there is one, and Memory where an allocation is refused. RAM may
    /// overlap the file's bytes and other RAM.
    pub fn flat(alloc: Global, bytes: &[u8], base: u64, rams: &[Ram]) -> Result<Image, ImageFault>
        requires aligned { base % 4 ≡ 0 }
        requires rams { All IsRam rams.now }
        ensures { Reads result (flat_of bytes.now base rams.now) }
    {
        check_file(bytes)?;
        check_end(bytes, base)?;
        let segments = flat_segment(alloc, bytes, base)?;
        let count = segments.len() as u64 + rams.len() as u64;
        check_limits(count, bytes.len() as u128 + ram_size(rams))?;
        Ok(Image::over(alloc, base, segments, bytes, rams)?)
    }
}

/// The fault of a file that passes 2^64.
fn check_end(bytes: &[u8], base: u64) -> Result<(), ImageFault>
    ensures { result ≡ passed (flat_end_fault bytes.now base) }
{
    if u128::from(base) + bytes.len() as u128 > 1 << 64 {
        return Err(ImageFault::Segment(0));
    }
    Ok(())
}

/// The one range of a file, or none where it is empty.
fn flat_segment(alloc: Global, bytes: &[u8], base: u64) -> Result<Vec<Range>, AllocError>
    ensures segments { IfOk result (λ found. map (segment_in bytes.now) found.items ≡ flat_segments bytes.now base) }
    ensures apart { IfOk result (λ found. AllPairs EndsBefore found.items) }
    ensures in_file { IfOk result (λ found. All (IsInFile bytes.now) found.items) }
{
    let mut found = Vec::new(alloc);
    if !bytes.is_empty() {
        found.push(Range {
            base,
            size: bytes.len() as u64,
            start: 0,
            len: bytes.len() as u64,
        })?;
    }
    Ok(found)
}
