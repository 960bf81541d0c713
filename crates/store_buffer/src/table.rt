//! The slots of stores.

ghost use Rattle.std.specs.Prelude.{◌≡◌, ◌≤◌, ◌+◌, [], ℕ, Some, IsSome, length, count_by, vec_capacity, true, false};
ghost use Rattle.slab.specs.Slab.{get, values, with_value, slab_len};
ghost use Rattle.store_buffer.specs.declared.store.Store.{Store as Held};
ghost use Rattle.store_buffer.specs.Store.{with_states};
ghost use Rattle.store_buffer.specs.Slots.{AreSlotted, newest_first, is_open_slot};
ghost use Rattle.store_buffer.specs.Stores.{open_stores};

use crate::store::{ByteState, Store};
use key_tree::KeyTree;
use slab::Slab;

/// A store that is there.
pub fn store_at(stores: &Slab<Store>, at: usize) -> &Store
    requires { IsSome (get stores.now at) }
    ensures { get stores.now at ≡ Some result.now }
{
    match stores.get(at) {
        Some(store) => store,
        None => unreachable!(),
    }
}

/// Gives bytes of a store this state.
pub fn give_at(stores: &mut Slab<Store>, at: usize, to: ByteState, addr: u64, len: u8)
    requires { IsSome (get stores.old at) }
    ensures { (s : Held) → get stores.old at ≡ Some s →
        stores.new ≡ with_value stores.old at (with_states to addr len s) }
{
    match stores.get_mut(at) {
        Some(store) => store.give(to, addr, len),
        None => unreachable!(),
    }
}

/// Drops the last finished store, and answers whether there was one.
fn drop_one(stores: &mut Slab<Store>, slots: &mut KeyTree, finished: &mut Vec<usize>) -> bool
    requires { AreSlotted stores.old slots.old finished.old.items }
    ensures slotted { AreSlotted stores.new slots.new finished.new.items }
    ensures unperformed { open_stores (newest_first (values stores.new))
        ≡ open_stores (newest_first (values stores.old)) }
    ensures counted { count_by is_open_slot stores.new.slots ≡ count_by is_open_slot stores.old.slots }
    ensures fewer { result ≡ true → length finished.new.items + 1 ≡ length finished.old.items }
    ensures none { result ≡ false → finished.new.items ≡ [] }
    ensures len { length finished.new.items ≤ length finished.old.items }
    ensures stores_len { slab_len stores.new ≤ slab_len stores.old }
    ensures room { stores.new.capacity ≡ stores.old.capacity }
    ensures slots_room { slots.new.capacity ≡ slots.old.capacity }
    ensures finished_room { vec_capacity finished.new ≡ vec_capacity finished.old }
{
    match finished.pop() {
        None => false,
        Some(at) => {
            let store = stores.remove(at);
            slots.take(store.tag);
            true
        }
    }
}

/// Drops all finished stores.
pub fn drop_finished(stores: &mut Slab<Store>, slots: &mut KeyTree, finished: &mut Vec<usize>)
    requires { AreSlotted stores.old slots.old finished.old.items }
    ensures slotted { AreSlotted stores.new slots.new finished.new.items }
    ensures unperformed { newest_first (values stores.new) ≡ open_stores (newest_first (values stores.old)) }
    ensures counted { count_by is_open_slot stores.new.slots ≡ count_by is_open_slot stores.old.slots }
    ensures stores_len { slab_len stores.new ≤ slab_len stores.old }
    ensures room { stores.new.capacity ≡ stores.old.capacity }
    ensures slots_room { slots.new.capacity ≡ slots.old.capacity }
    ensures finished_room { vec_capacity finished.new ≡ vec_capacity finished.old }
{
    let mut more = true;
    while more {
        more = drop_one(stores, slots, finished);
    }
}
