//! The table of RAM, and tables in order.

ghost use Rattle.std.specs.Prelude.{◌≡◌, ℕ, IfOk, map};
ghost use Rattle.std.specs.List.{AllPairs};
ghost use Rattle.std.specs.List.Sorted.{IsNonDecreasingBy, IsPermutation};
ghost use Rattle.elf_image.specs.Images.{ram_byte};
ghost use Rattle.elf_image.specs.Rams.{span_of};
ghost use Rattle.elf_image.specs.Tables.{Climbs, nowhere, ram_range, reaching, span_in, all_reaching};

use crate::ram::Ram;
use crate::range::Range;
use std::alloc::{AllocError, Global};

/// RAM as a table: in the order of the bases, each range reaching as far as those before it.
pub fn ram_table(alloc: Global, rams: &[Ram]) -> Result<Vec<Range>, AllocError>
    ensures climb { IfOk result (λ table. AllPairs Climbs table.items) }
    ensures same { IfOk result (λ table. (x : ℕ)
        → ram_byte (map span_in table.items) x ≡ ram_byte (map span_of rams.now) x) }
{
    let ranges = sorted(ram_ranges(alloc, rams)?);
    widen(alloc, ranges)
}

/// The ranges of RAM.
fn ram_ranges(alloc: Global, rams: &[Ram]) -> Result<Vec<Range>, AllocError>
    ensures { IfOk result (λ ranges. ranges.items ≡ map ram_range rams.now) }
{
    rams.iter()
        .map(|ram| Range {
            base: ram.base,
            size: ram.size,
            start: 0,
            len: 0,
        })
        .collect(alloc)
}

/// The ranges, each reaching as far as those before it. Together they hold the same addresses.
fn widen(alloc: Global, ranges: Vec<Range>) -> Result<Vec<Range>, AllocError>
    ensures { IfOk result (λ wide. wide.items ≡ all_reaching nowhere ranges.items) }
{
    let mut wide = Vec::new(alloc);
    let mut before = Range {
        base: 0,
        size: 0,
        start: 0,
        len: 0,
    };
    for range in &ranges {
        before = reaching(&before, range);
        wide.push(before)?;
    }
    Ok(wide)
}

/// The range, reaching at least as far as the one before it.
fn reaching(before: &Range, range: &Range) -> Range
    ensures { result ≡ reaching before.now range.now }
{
    let reach = before
        .size
        .saturating_sub(range.base.saturating_sub(before.base));
    Range {
        base: range.base,
        size: range.size.max(reach),
        start: 0,
        len: 0,
    }
}

/// The ranges in the order of their bases.
pub fn sorted(mut ranges: Vec<Range>) -> Vec<Range>
    ensures permutation { IsPermutation ranges.items result.items }
    ensures sorted { IsNonDecreasingBy (λ range. range.base) result.items }
{
    sort(&mut ranges);
    ranges
}

/// Puts the ranges in the order of their bases.
fn sort(ranges: &mut [Range])
    ensures permutation { IsPermutation ranges.old ranges.new }
    ensures sorted { IsNonDecreasingBy (λ range. range.base) ranges.new }
{
    ranges.sort_unstable_by_key(|range| range.base);
}
