//! Copies of what is kept of the harts, which take memory.

ghost use Rattle.std.specs.Prelude.{◌≡◌, ◌<◌, ℕ, length, slice_index_or, IfOk};
ghost use Rattle.matching.specs.Tables as Tables;
ghost use Rattle.matching.specs.declared.hart_table.HartTable.{HartTable};

use super::hart_table::HartTable;
use std::alloc::{AllocError, Global};

impl HartTable {
    /// A copy of the hart.
    fn copy(&self, alloc: Global) -> Result<HartTable, AllocError>
        ensures { IfOk result (λ made. Tables.table_of made ≡ Tables.table_of self.now) }
    {
        Ok(HartTable {
            hart: self.hart,
            last: self.last,
            clocks: self.clocks,
            pair: self.pair,
            live: Vec::from_slice(alloc, self.live.as_slice())?,
            inserts: Vec::from_slice(alloc, self.inserts.as_slice())?,
            stores: Vec::from_slice(alloc, self.stores.as_slice())?,
        })
    }
}

/// Copies of the harts.
pub fn copies(alloc: Global, harts: &[HartTable]) -> Result<Vec<HartTable>, AllocError>
    requires { length harts.now ≡ 16 }
    ensures { IfOk result (λ made. (length made.items ≡ 16) × ((h : ℕ) (other : HartTable) → h < 16 →
        Tables.table_of (slice_index_or made.items h other) ≡ Tables.table_of (slice_index_or harts.now h other))) }
{
    let mut made = Vec::new(alloc);
    for number in 0..16u8 {
        made.push(harts[usize::from(number)].copy(alloc)?)?;
    }
    Ok(made)
}
