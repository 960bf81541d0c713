//! The stores of a hart whose tags rise.

ghost use Rattle.std.specs.Prelude.{◌≡◌, ◌<◌, ◌+◌, ◌≤◌, ◌^◌};

use msg_frames::Piece;
use std::alloc::{AllocError, Global};
use std::marker::Model;
use store_buffer::{StoreMarks, Stores, Taken};
use tandem_base::{Extent, Took};

/// The retired stores of a hart, with the least tag that the next may have.
#[derive(Drop)]
pub struct Retiring {
    stores: Stores,
    next: u64,
}

impl Model for Retiring {
    ghost use Rattle.std.specs.Prelude.{ℕ};
    ghost use Rattle.store_buffer.specs.Stores.{AllTagged};

    ghost Value = { ℕ };

    ghost view = { λ r. r.next };

    ghost invariant = { λ r. AllTagged r.next r.stores.stores };
}

impl Retiring {
    /// No stores.
    pub(crate) fn new(alloc: Global, capacity: u32) -> Result<Retiring, AllocError> {
        Ok(Retiring {
            stores: Stores::new(alloc, 0, capacity)?,
            next: 0,
        })
    }

    /// The stores.
    pub(crate) fn stores(&self) -> &Stores {
        &self.stores
    }

    /// A store retires, and those that are performed go. None where its tag isn't above those before, or its
    /// bytes pass the top of the addresses.
    pub(crate) fn retire(&mut self, tag: u64, piece: &Piece, marks: &StoreMarks) -> Option<Took> {
        let top = u128::from(piece.addr) + u128::from(piece.bytes.len());
        if tag < self.next || tag == u64::MAX || top > 1 << 64 {
            return None;
        }
        self.stores.sweep();
        let took = self.stores.retire(tag, piece, marks);
        self.next = tag + 1;
        Some(took)
    }

    /// Bytes of the store under a tag are inserted.
    pub(crate) fn insert(&mut self, tag: u64, piece: &Piece) -> Taken {
        self.stores.insert(tag, piece)
    }

    /// The bytes of an extent of the store under a tag are performed.
    pub(crate) fn perform(&mut self, tag: u64, extent: &Extent) {
        self.stores.performed(tag, extent);
    }
}
