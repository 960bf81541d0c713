//! The marks of the bytes of an aligned doubleword.

use crate::byte_keys::ByteKeys;
use crate::division::{Division, division_of_extent};
use crate::operation::KeptOp;
use crate::ops::Ops;
use tandem_base::Extent;

/// An aligned doubleword: the eighth of its address, how it is divided into cells, and the keys at all
/// bytes of each cell. What stands behind the last cell means nothing.
#[derive(Clone, Copy, Debug)]
pub struct Doubleword {
    pub number: u64,
    pub division: Division,
    pub cells: [ByteKeys; 8],
}

impl Doubleword {
    ghost use Rattle.std.specs.Prelude.{◌≡◌, ◌+◌, ◌*◌, ◌/◌, ◌<◌, ◌≤◌, ◌^◌, ℕ, Some, true, false};
    ghost use Rattle.slab.specs.Slab.{get};
    ghost use Rattle.kept_ops.specs.declared.operation.KeptOp.{KeptOp as Op};
    ghost use Rattle.kept_ops.specs.declared.division.Division.TheVariants.{Whole, Halves, Bytes};
    ghost use Rattle.kept_ops.specs.Divisions.{cell_size, IsEven};
    ghost use Rattle.kept_ops.specs.Doublewords.{no_keys, cell_keys, keys_in, keys_with, keys_without, keys_closed};
    ghost use Rattle.kept_ops.specs.Doublewords.{has_a_key, op_at, HasMark};

    /// A doubleword without marks.
    pub fn new(number: u64) -> Doubleword
        ensures number { result.number ≡ number }
        ensures keys { (k : ℕ) → k < 8 → keys_in result k ≡ no_keys }
    {
        Doubleword {
            number,
            division: Division::Whole,
            cells: [ByteKeys::none(); 8],
        }
    }

    /// The keys at byte `k`.
    pub fn at(&self, k: u8) -> ByteKeys
        requires { k < 8 }
        ensures { result ≡ keys_in self.now k }
    {
        self.cells[self.division.cell(k)]
    }

    /// A division at whose cells the loads that are marked did the same at all bytes: this one, or a
    /// finer one.
    fn common(&self, ops: &Ops, division: Division) -> Division
        ensures finer { cell_size result ≤ cell_size self.now.division }
        ensures even { cell_size result ≤ cell_size division }
        ensures loads { (c : ℕ) → c < 8 / cell_size self.now.division → (o : Op)
            → op_at (get ops.now) (cell_keys self.now c).load ≡ Some o → IsEven result o }
    {
        let mut common = division.finer(self.division);
        for c in 0..self.division.count() {
            common = common.finer(ops.division(self.cells[c].load));
        }
        common
    }

    /// Divides the one cell into two.
    fn halve(&mut self)
        requires { self.old.division ≡ Whole }
        ensures number { self.new.number ≡ self.old.number }
        ensures division { self.new.division ≡ Halves }
        ensures keys { (k : ℕ) → k < 8 → keys_in self.new k ≡ keys_in self.old k }
    {
        self.cells[1] = self.cells[0];
        self.division = Division::Halves;
    }

    /// Divides two cells into eight.
    fn scatter(&mut self)
        requires { self.old.division ≡ Halves }
        ensures number { self.new.number ≡ self.old.number }
        ensures division { self.new.division ≡ Bytes }
        ensures keys { (k : ℕ) → k < 8 → keys_in self.new k ≡ keys_in self.old k }
    {
        let low = self.cells[0];
        let high = self.cells[1];
        self.cells = [low, low, low, low, high, high, high, high];
        self.division = Division::Bytes;
    }

    /// Divides it more finely, or leaves it as it is.
    #[inline(never)]
    fn split(&mut self, division: Division)
        requires { cell_size division ≤ cell_size self.old.division }
        ensures number { self.new.number ≡ self.old.number }
        ensures division { self.new.division ≡ division }
        ensures keys { (k : ℕ) → k < 8 → keys_in self.new k ≡ keys_in self.old k }
    {
        if self.division == Division::Whole && division != Division::Whole {
            self.halve();
        }
        if self.division == Division::Halves && division == Division::Bytes {
            self.scatter();
        }
    }

    /// The same, where it mostly stays as it is.
    fn divide(&mut self, division: Division)
        requires { cell_size division ≤ cell_size self.old.division }
        ensures number { self.new.number ≡ self.old.number }
        ensures division { self.new.division ≡ division }
        ensures keys { (k : ℕ) → k < 8 → keys_in self.new k ≡ keys_in self.old k }
    {
        match (self.division, division) {
            (Division::Whole, Division::Whole) => {}
            (Division::Halves, Division::Halves) => {}
            (Division::Bytes, Division::Bytes) => {}
            _ => self.split(division),
        }
    }

    /// Marks an operation, kept under this key, at each cell of several.
    #[inline(never)]
    fn mark_each(&mut self, ops: &Ops, key: u32, op: &KeptOp)
        requires { self.old.number < 2 ^ 61 }
        ensures number { self.new.number ≡ self.old.number }
        ensures division { self.new.division ≡ self.old.division }
        ensures cells { (c : ℕ) → c < 8 / cell_size self.old.division → cell_keys self.new c
            ≡ keys_with (get ops.now) (self.old.number * 8 + c * cell_size self.old.division) key op.now
            (cell_keys self.old c) }
    {
        let base = self.number * 8;
        let size = self.division.size();
        for c in 0..self.division.count() {
            self.cells[c].add(ops, key, op, base + c as u64 * size);
        }
    }

    /// Marks an operation, kept under this key, at each cell.
    fn mark_cells(&mut self, ops: &Ops, key: u32, op: &KeptOp)
        requires { self.old.number < 2 ^ 61 }
        ensures number { self.new.number ≡ self.old.number }
        ensures division { self.new.division ≡ self.old.division }
        ensures cells { (c : ℕ) → c < 8 / cell_size self.old.division → cell_keys self.new c
            ≡ keys_with (get ops.now) (self.old.number * 8 + c * cell_size self.old.division) key op.now
            (cell_keys self.old c) }
    {
        match self.division {
            Division::Whole => self.cells[0].add(ops, key, op, self.number * 8),
            _ => self.mark_each(ops, key, op),
        }
    }

    /// Marks an operation, kept under this key, at each of its bytes. It does the same at all bytes of a
    /// cell of this division.
    pub fn mark(&mut self, ops: &Ops, key: u32, op: &KeptOp, division: Division)
        requires number { self.old.number < 2 ^ 61 }
        requires even { IsEven division op.now }
        ensures number { self.new.number ≡ self.old.number }
        ensures keys { (k : ℕ) → k < 8 → keys_in self.new k
            ≡ keys_with (get ops.now) (self.old.number * 8 + k) key op.now (keys_in self.old k) }
    {
        let common = self.common(ops, division);
        self.divide(common);
        self.mark_cells(ops, key, op);
    }

    /// Takes the marks of the operation under this key away.
    pub fn forget(&mut self, key: u32)
        ensures number { self.new.number ≡ self.old.number }
        ensures keys { (k : ℕ) → k < 8 → keys_in self.new k ≡ keys_without key (keys_in self.old k) }
    {
        for c in 0..self.division.count() {
            let keys = self.cells[c];
            self.cells[c] = keys.without(key);
        }
    }

    /// Takes the marks of loads of these bytes away from each cell. The extent has all bytes of a cell, or
    /// none.
    fn close_cells(&mut self, extent: &Extent)
        requires { self.old.number < 2 ^ 61 }
        ensures number { self.new.number ≡ self.old.number }
        ensures division { self.new.division ≡ self.old.division }
        ensures cells { (c : ℕ) → c < 8 / cell_size self.old.division → cell_keys self.new c
            ≡ keys_closed extent.now (self.old.number * 8 + c * cell_size self.old.division) (cell_keys self.old c) }
    {
        let base = self.number * 8;
        let size = self.division.size();
        for c in 0..self.division.count() {
            let keys = self.cells[c];
            self.cells[c] = keys.closed(extent, base + c as u64 * size);
        }
    }

    /// Takes the marks of loads of these bytes away.
    pub fn close(&mut self, extent: &Extent)
        requires { self.old.number < 2 ^ 61 }
        ensures number { self.new.number ≡ self.old.number }
        ensures keys { (k : ℕ) → k < 8 → keys_in self.new k
            ≡ keys_closed extent.now (self.old.number * 8 + k) (keys_in self.old k) }
    {
        let division = division_of_extent(extent).finer(self.division);
        self.divide(division);
        self.close_cells(extent);
    }

    /// Whether no byte has a mark.
    pub fn is_empty(&self) -> bool
        ensures none { result ≡ true → (k : ℕ) → k < 8 → has_a_key (keys_in self.now k) ≡ false }
        ensures some { result ≡ false → HasMark self.now }
    {
        for c in 0..self.division.count() {
            if self.cells[c].is_some() {
                return false;
            }
        }
        true
    }
}
