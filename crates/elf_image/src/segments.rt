//! The table of segments.

ghost use Rattle.std.specs.Prelude.{◌≡◌, ◌<◌, ℕ, List, None, IfOk, length, map};
ghost use Rattle.std.specs.List.{All, AllPairs, find};
ghost use Rattle.elf_image.specs.Elf.{is_misplaced, segment_of, overlap_fault};
ghost use Rattle.elf_image.specs.Images.{segment_byte};
ghost use Rattle.elf_image.specs.Tables.{EndsBefore, IsInFile, load_range, segment_in};

use crate::program::ProgramHeader;
use crate::range::Range;
use crate::table::sorted;
use std::alloc::{AllocError, Global};

/// Segments that share no address as a table: in the order of their bases.
pub fn segment_table(alloc: Global, loads: &[ProgramHeader]) -> Result<Vec<Range>, AllocError>
    requires once { overlap_fault loads.now ≡ None }
    requires sized { All (λ load. 0 < load.size) loads.now }
    ensures apart { IfOk result (λ table. AllPairs EndsBefore table.items) }
    ensures in_file { IfOk result (λ table. (file : List ℕ) → find (is_misplaced (length file)) loads.now ≡ None
        → All (IsInFile file) table.items) }
    ensures same { IfOk result (λ table. (file : List ℕ) (x : ℕ)
        → segment_byte (map (segment_in file) table.items) x ≡ segment_byte (map (segment_of file) loads.now) x) }
{
    Ok(sorted(load_ranges(alloc, loads)?))
}

/// The ranges of segments.
fn load_ranges(alloc: Global, loads: &[ProgramHeader]) -> Result<Vec<Range>, AllocError>
    ensures { IfOk result (λ ranges. ranges.items ≡ map load_range loads.now) }
{
    loads
        .iter()
        .map(|load| Range {
            base: load.address,
            size: load.size,
            start: load.offset,
            len: load.file_size,
        })
        .collect(alloc)
}
