//! The stores of a hart.

use crate::parts::Taken;
use crate::pending::Pending;
use crate::store::{ByteState, Entry, Store, StoreMarks};
use crate::{latest, table};
use key_tree::KeyTree;
use msg_frames::Piece;
use slab::Slab;
use std::alloc::{AllocError, Global};
use std::marker::Model;
use tandem_base::{Extent, OpName, Took};

/// The retired stores of a hart that have an unperformed byte, and those that had one at the last
/// sweep.
#[derive(Drop)]
pub struct Stores {
    hart: u8,
    stores: Slab<Store>,
    slots: KeyTree,
    finished: Vec<usize>,
    unperformed: u32,
    capacity: u32,
}

impl Model for Stores {
    ghost use Rattle.std.specs.Prelude.{◌≡◌, ◌≤◌, vec_capacity, count_by};
    ghost use Rattle.slab.specs.Slab.{values, slab_len};
    ghost use Rattle.store_buffer.specs.Slots.{AreSlotted, newest_first, is_open_slot};
    ghost use Rattle.store_buffer.specs.Stores.{StoreList};

    ghost Value = { StoreList };

    ghost view = { λ t. record {
      hart = t.hart;
      stores = newest_first (values t.stores);
      capacity = t.capacity;
    } };

    ghost invariant = { λ t. AreSlotted t.stores t.slots t.finished.items
        × (count_by is_open_slot t.stores.slots ≡ t.unperformed)
        × (slab_len t.stores ≤ t.capacity) × (t.capacity ≤ t.stores.capacity) × (t.slots.capacity ≡ t.capacity)
        × (t.capacity ≤ vec_capacity t.finished) };
}

impl Stores {
    ghost use Rattle.std.specs.Prelude.{◌≡◌, ◌+◌, ◌≤◌, ◌^◌, [], length, IfOk, option_copied};
    ghost use Rattle.std.specs.Option.{option_map};
    ghost use Rattle.tandem_base.specs.Room.{took};
    ghost use Rattle.store_buffer.specs.declared.store.ByteState.TheVariants.{Performed};
    ghost use Rattle.store_buffer.specs.Store.{untouched_store, answer_for};
    ghost use Rattle.store_buffer.specs.Stores.{StoreList, store_of_tag, open_stores, all_given, after_taken};
    ghost use Rattle.store_buffer.specs.Stores.{after_retire};
    ghost use Rattle.store_buffer.specs.Stores.{AllTagged};
    ghost use Rattle.store_buffer.specs.Waiting.{AreRetired, pending_in, waiting_below};

    /// No stores of a hart, with room for `capacity` of them. No other call takes memory.
    pub fn new(alloc: Global, hart: u8, capacity: u32) -> Result<Stores, AllocError>
        ensures { IfOk result (λ made. made ≡ record { hart = hart; stores = []; capacity = capacity }) }
    {
        Ok(Stores {
            hart,
            stores: Slab::with_capacity(alloc, capacity as usize)?,
            slots: KeyTree::new(alloc, capacity)?,
            finished: Vec::with_capacity(alloc, capacity as usize)?,
            unperformed: 0,
            capacity,
        })
    }

    /// How many stores have an unperformed byte.
    pub fn count(&self) -> u32
        ensures { result ≡ length (open_stores self.now.stores) }
    {
        self.unperformed
    }

    /// A store that retires, where there is room for one more. It comes after all others, each of
    /// which has an unperformed byte.
    pub fn retire(&mut self, tag: u64, piece: &Piece, marks: &StoreMarks) -> Took
        // Tags rise in program order.
        requires newest { AllTagged tag self.old.stores }
        // A sweep leaves no other.
        requires swept { open_stores self.old.stores ≡ self.old.stores }
        // An access that passes 2^64 traps, and what traps stores nothing.
        requires fits { piece.now.addr + length piece.now.bytes ≤ 2 ^ 64 }
        ensures took { result ≡ took (length self.old.stores) self.old.capacity }
        ensures stores { self.new.stores
            ≡ after_retire result (untouched_store tag piece.now marks.now) self.old.stores }
        ensures capacity { self.new.capacity ≡ self.old.capacity }
        ensures hart { self.new.hart ≡ self.old.hart }
    {
        if self.unperformed == self.capacity {
            return Took::Full(self.capacity);
        }
        let _none = self.slots.get(tag);
        let at = self.stores.insert_reserved(Store::new(tag, piece, marks));
        self.slots.put(tag, at);
        self.unperformed += 1;
        Took::Yes
    }

    /// An Insert of bytes of the store under a tag. Where it is refused nothing changes.
    pub fn insert(&mut self, tag: u64, piece: &Piece) -> Taken
        ensures taken { result ≡ answer_for (store_of_tag tag self.old.stores) piece.now }
        ensures stores { self.new.stores ≡ after_taken result tag piece.now self.old.stores }
        ensures capacity { self.new.capacity ≡ self.old.capacity }
        ensures hart { self.new.hart ≡ self.old.hart }
        ensures retired { AreRetired self.old.stores }
    {
        let at = match self.slots.get(tag) {
            None => return Taken::Unknown,
            Some(at) => at,
        };
        match table::store_at(&self.stores, at).answer(piece) {
            Taken::Yes => {
                table::give_at(
                    &mut self.stores,
                    at,
                    ByteState::Inserted,
                    piece.addr,
                    piece.bytes.len(),
                );
                Taken::Yes
            }
            refused => refused,
        }
    }

    /// A Bypass of bytes of the store under a tag, which is taken as an Insert is. That the bytes
    /// are performed is told by `performed`.
    pub fn bypass(&mut self, tag: u64, piece: &Piece) -> Taken
        ensures taken { result ≡ answer_for (store_of_tag tag self.old.stores) piece.now }
        ensures stores { self.new.stores ≡ after_taken result tag piece.now self.old.stores }
        ensures capacity { self.new.capacity ≡ self.old.capacity }
        ensures hart { self.new.hart ≡ self.old.hart }
        ensures retired { AreRetired self.old.stores }
    {
        self.insert(tag, piece)
    }

    /// The bytes of an extent of the store under a tag are performed.
    pub fn performed(&mut self, tag: u64, extent: &Extent)
        ensures stores { self.new.stores
            ≡ all_given tag Performed extent.now.addr extent.now.len self.old.stores }
        ensures capacity { self.new.capacity ≡ self.old.capacity }
        ensures hart { self.new.hart ≡ self.old.hart }
        ensures retired { AreRetired self.old.stores }
    {
        let at = match self.slots.get(tag) {
            None => return,
            Some(at) => at,
        };
        let was_open = table::store_at(&self.stores, at).is_open();
        table::give_at(
            &mut self.stores,
            at,
            ByteState::Performed,
            extent.addr,
            extent.len,
        );
        let is_open = table::store_at(&self.stores, at).is_open();
        if was_open == is_open {
            return;
        }
        let _listed = self.finished.as_slice();
        self.finished.push_reserved(at);
        self.unperformed -= 1;
    }

    /// The store under a tag, also after all its bytes were performed, until the next sweep.
    pub fn entry(&self, tag: u64) -> Option<&Entry>
        ensures { option_copied result ≡ option_map (λ s. s.entry) (store_of_tag tag self.now.stores) }
    {
        match self.slots.get(tag) {
            None => None,
            Some(at) => Some(&table::store_at(&self.stores, at).entry),
        }
    }

    /// The byte at an address of the latest store in program order of which it waits. None where it
    /// waits of no store.
    pub fn pending_at(&self, addr: u64) -> Option<Pending>
        ensures value { result ≡ pending_in self.now.hart self.now.stores addr }
        ensures retired { AreRetired self.now.stores }
    {
        match latest::newest_at(&self.stores, addr) {
            None => None,
            Some(store) => Some(store.pending(self.hart, addr)),
        }
    }

    /// Of the stores with an unperformed byte, and one in an extent where one is given, the one of the
    /// greatest tag below a bound. None where there is none.
    pub fn waiting(&self, below: u64, over: Option<&Extent>) -> Option<OpName>
        ensures { result ≡ waiting_below self.now.hart self.now.stores below (option_copied over.entry) }
    {
        let newest = match over {
            None => latest::newest_open(&self.stores, below),
            Some(extent) => latest::newest_among(&self.stores, extent.addr, extent.len, below),
        };
        match newest {
            None => None,
            Some(store) => Some(store.waiting_name(self.hart)),
        }
    }

    /// Drops the stores of which all bytes are performed.
    pub fn sweep(&mut self)
        ensures stores { self.new.stores ≡ open_stores self.old.stores }
        ensures swept { open_stores self.new.stores ≡ self.new.stores }
        ensures capacity { self.new.capacity ≡ self.old.capacity }
        ensures hart { self.new.hart ≡ self.old.hart }
        ensures retired { AreRetired self.old.stores }
    {
        table::drop_finished(&mut self.stores, &mut self.slots, &mut self.finished);
    }
}
