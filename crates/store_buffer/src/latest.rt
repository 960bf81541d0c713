//! The newest store of which something waits.

ghost use Rattle.std.specs.Prelude.{◌≡◌, ◌&&◌, ◌+◌, ◌^◌, ◌≤◌, ◌<◌, nat_lt, find, option_copied};
ghost use Rattle.slab.specs.Slab.{values};
ghost use Rattle.store_buffer.specs.Slots.{newest_first};
ghost use Rattle.store_buffer.specs.Store.{stays_open};
ghost use Rattle.store_buffer.specs.Waiting.{waits_at, waits_among, AreRetired};

use crate::pending::newer_of;
use crate::store::Store;
use slab::Slab;

/// The newest store of which the byte at an address waits.
pub fn newest_at(stores: &Slab<Store>, addr: u64) -> Option<&Store>
    ensures { option_copied result ≡ find (waits_at addr) (newest_first (values stores.now)) }
{
    let mut newest = None;
    for (_at, store) in stores.iter() {
        if store.waits_at(addr) {
            newest = newer_of(newest, Some(store));
        }
    }
    newest
}

/// The newest store below a tag of which the byte at an address waits.
pub fn newest_below(stores: &Slab<Store>, addr: u64, below: u64) -> Option<&Store>
    ensures { option_copied result
        ≡ find (λ s. nat_lt s.tag below && waits_at addr s) (newest_first (values stores.now)) }
{
    let mut newest = None;
    for (_at, store) in stores.iter() {
        if store.waits_at_below(addr, below) {
            newest = newer_of(newest, Some(store));
        }
    }
    newest
}

/// The newest store below a tag of which the byte `k` behind an address waits.
fn newest_behind(stores: &Slab<Store>, addr: u64, k: u8, below: u64) -> Option<&Store>
    // It is a byte of an extent.
    requires { addr + k < 2 ^ 64 }
    ensures { option_copied result
        ≡ find (λ s. nat_lt s.tag below && waits_at (addr + k) s) (newest_first (values stores.now)) }
{
    newest_below(stores, addr + u64::from(k), below)
}

/// The newest store below a tag of which a byte waits.
pub fn newest_open(stores: &Slab<Store>, below: u64) -> Option<&Store>
    ensures { option_copied result
        ≡ find (λ s. nat_lt s.tag below && stays_open s) (newest_first (values stores.now)) }
{
    let mut newest = None;
    for (_at, store) in stores.iter() {
        if store.is_open_below(below) {
            newest = newer_of(newest, Some(store));
        }
    }
    newest
}

/// The newest store below a tag of which one of the `len` bytes from `addr` up waits.
pub fn newest_among(stores: &Slab<Store>, addr: u64, len: u8, below: u64) -> Option<&Store>
    // The tags of a hart's stores fall.
    requires retired { AreRetired (newest_first (values stores.now)) }
    // An extent doesn't pass 2^64.
    requires within { addr + len ≤ 2 ^ 64 }
    ensures { option_copied result
        ≡ find (λ s. nat_lt s.tag below && waits_among addr len s) (newest_first (values stores.now)) }
{
    let mut newest = None;
    for k in 0..len {
        newest = newer_of(newest, newest_behind(stores, addr, k, below));
    }
    newest
}
