//! Ranges of addresses, and the one that holds an address.

ghost use Rattle.std.specs.Prelude.{◌≡◌, ◌≤◌, ◌<◌, true, false, IfSome, IfNone, length};
ghost use Rattle.std.specs.List.{All, AllPairs, AllWithin, Contains};
ghost use Rattle.elf_image.specs.Tables.{Climbs, range_holds};

/// A range of addresses, and the run of the file's bytes that it begins with: `len` bytes from
/// `start` on, none for RAM.
#[derive(Clone, Copy, Debug)]
pub struct Range {
    /// The lowest address.
    pub base: u64,
    /// How many addresses.
    pub size: u64,
    /// The offset in the file of the first byte of the run.
    pub start: u64,
    /// How many bytes the run has.
    pub len: u64,
}

/// The range that holds the address: the last of those that begin at or below it.
pub fn locate(ranges: &[Range], addr: u64) -> Option<&Range>
    requires { AllPairs Climbs ranges.now }
    ensures found { IfSome result (λ range. Contains ranges.now range.now × (range_holds addr range.now ≡ true)) }
    ensures none { IfNone result (All (λ range. range_holds addr range ≡ false) ranges.now) }
{
    let after = first_after(ranges, addr);
    if after == 0 {
        return None;
    }
    let range = &ranges[after - 1];
    if addr - range.base < range.size {
        Some(range)
    } else {
        None
    }
}

/// The place of the first range that begins above the address.
fn first_after(ranges: &[Range], addr: u64) -> usize
    requires { AllPairs Climbs ranges.now }
    ensures bound { result ≤ length ranges.now }
    ensures before { AllWithin (λ range. range.base ≤ addr) ranges.now 0 result }
    ensures after { AllWithin (λ range. addr < range.base) ranges.now result (length ranges.now) }
{
    ranges.partition_point(|range| range.base <= addr)
}
