//! How a doubleword is divided into cells, so that what is done at a byte is done at its whole cell.

ghost use Rattle.std.specs.Prelude.{◌≡◌, ◌≤◌, ◌<◌, ◌%◌, ℕ, true, None, length, slice_index_or};
ghost use Rattle.tandem_base.specs.Extents.{is_among};
ghost use Rattle.kept_ops.specs.Divisions.{cell_size, IsEven, IsEvenExtent};
ghost use Rattle.kept_ops.specs.Operations.{holds_byte};

use crate::operation::KeptOp;
use tandem_base::{Extent, Origin};

/// How an aligned doubleword is divided into cells.
#[derive(Clone, Copy, Debug, PartialEq, Eq)]
pub enum Division {
    /// One cell of eight bytes.
    Whole,
    /// Two cells of four bytes.
    Halves,
    /// Eight cells of one byte.
    Bytes,
}

impl Division {
    ghost use Rattle.std.specs.Prelude.{◌≡◌, ◌≤◌, ◌<◌, ◌/◌};
    ghost use Rattle.kept_ops.specs.Divisions.{cell_size};

    /// How many bytes a cell has.
    pub fn size(self) -> u64
        ensures { result ≡ cell_size self }
    {
        match self {
            Division::Whole => 8,
            Division::Halves => 4,
            Division::Bytes => 1,
        }
    }

    /// How many cells there are.
    pub fn count(self) -> usize
        ensures { result ≡ 8 / cell_size self }
    {
        match self {
            Division::Whole => 1,
            Division::Halves => 2,
            Division::Bytes => 8,
        }
    }

    /// The number of the cell that has byte `k` of the doubleword.
    pub fn cell(self, k: u8) -> usize
        requires { k < 8 }
        ensures { result ≡ k / cell_size self }
    {
        match self {
            Division::Whole => 0,
            Division::Halves => (k / 4) as usize,
            Division::Bytes => k as usize,
        }
    }

    /// The finer of two.
    pub fn finer(self, other: Division) -> Division
        ensures one { cell_size result ≤ cell_size self }
        ensures other { cell_size result ≤ cell_size other }
    {
        match (self, other) {
            (Division::Bytes, _) | (_, Division::Bytes) => Division::Bytes,
            (Division::Halves, _) | (_, Division::Halves) => Division::Halves,
            (Division::Whole, Division::Whole) => Division::Whole,
        }
    }
}

/// Whether the sources from one on, up to another, are the same.
fn are_same(sources: &[Option<Origin>; 8], from: usize, to: usize) -> bool
    requires { to ≤ 8 }
    ensures same { result ≡ true → (k : ℕ) → from ≤ k → k < to
        → slice_index_or sources.now k None ≡ slice_index_or sources.now from None }
    ensures eight { length sources.now ≡ 8 }
{
    for k in from..to {
        if sources[k] != sources[from] {
            return false;
        }
    }
    true
}

/// Whether each byte of the extent is one of the operation's. It may be so where the answer is no.
fn has_all(op: &KeptOp) -> bool
    ensures { result ≡ true → (x : ℕ) → holds_byte x op.now ≡ is_among op.now.extent.addr op.now.extent.len x }
{
    op.mask == 0xff || op.extent.len == 4 && op.mask == 0xf
}

/// A division of which an extent has all bytes of a cell, or none.
pub fn division_of_extent(extent: &Extent) -> Division
    ensures even { IsEvenExtent result extent.now }
    ensures aligned { extent.now.addr % cell_size result ≡ 0 }
{
    if extent.len == 8 && extent.addr % 8 == 0 {
        Division::Whole
    } else if extent.len % 4 == 0 && extent.addr % 4 == 0 {
        Division::Halves
    } else {
        Division::Bytes
    }
}

/// A division at whose cells an operation does the same at all bytes.
pub fn division_of(op: &KeptOp) -> Division
    ensures { IsEven result op.now }
{
    if !has_all(op) {
        return Division::Bytes;
    }
    let division = division_of_extent(&op.extent);
    if division == Division::Whole && are_same(&op.sources, 0, 8) {
        return Division::Whole;
    }
    if division != Division::Bytes && are_same(&op.sources, 0, 4) && are_same(&op.sources, 4, 8) {
        return Division::Halves;
    }
    Division::Bytes
}
