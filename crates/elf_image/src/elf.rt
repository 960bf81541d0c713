//! Images from ELF64 files.

ghost use Rattle.std.specs.Prelude.{◌≡◌, ◌%◌, ◌<◌, ◌≤◌, length};
ghost use Rattle.std.specs.List.{All};
ghost use Rattle.elf_image.specs.Elf.{entry_address, loads_fault, loads_image};
ghost use Rattle.tandem_base.specs.FirstFault.{unless};
ghost use Rattle.elf_image.specs.Faults.{Reads};

use crate::fault::ImageFault;
use crate::header::{check_header, entry};
use crate::image::Image;
use crate::limits::{check_file, check_limits, ram_size};
use crate::program::{ProgramHeader, check_overlap, check_segments, load_size, loadable};
use crate::ram::Ram;
use crate::segments::segment_table;
use std::alloc::Global;

impl Image {
    ghost use Rattle.std.specs.List.{All};
    ghost use Rattle.elf_image.specs.Elf.{elf_of};
    ghost use Rattle.elf_image.specs.Faults.{Reads};
    ghost use Rattle.elf_image.specs.Rams.{IsRam};

    /// The image of an ELF64 file, its segments at their physical addresses, with RAM besides. The
    /// first fault where there is one, and Memory where an allocation is refused. RAM may overlap
    /// segments and other RAM.
    pub fn read_elf(alloc: Global, bytes: &[u8], rams: &[Ram]) -> Result<Image, ImageFault>
        requires { All IsRam rams.now }
        ensures { Reads result (elf_of bytes.now rams.now) }
    {
        check_file(bytes)?;
        check_header(bytes)?;
        let loads = loadable(alloc, bytes)?;
        load(alloc, bytes, &loads, rams)
    }
}

/// The image of the segments to be loaded from a file, and RAM.
fn load(
    alloc: Global,
    bytes: &[u8],
    loads: &[ProgramHeader],
    rams: &[Ram],
) -> Result<Image, ImageFault>
    requires whole { 64 ≤ length bytes.now }
    requires aligned { entry_address bytes.now % 4 ≡ 0 }
    requires sized { All (λ load. 0 < load.size) loads.now }
    ensures { Reads result
        (unless (loads_fault (length bytes.now) loads.now rams.now) (loads_image bytes.now loads.now rams.now)) }
{
    check_segments(loads, bytes.len() as u64)?;
    let count = loads.len() as u64 + rams.len() as u64;
    check_limits(count, load_size(loads) + ram_size(rams))?;
    check_overlap(loads)?;
    let segments = segment_table(alloc, loads)?;
    Ok(Image::over(alloc, entry(bytes), segments, bytes, rams)?)
}
