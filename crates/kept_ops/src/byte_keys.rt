//! The marks of a byte.

ghost use Rattle.std.specs.Prelude.{◌≡◌};
ghost use Rattle.slab.specs.Slab.{get};
ghost use Rattle.rvwmo_model.specs.Tests.{same_origin};
ghost use Rattle.kept_ops.specs.Doublewords.{later_key, without_key};

use crate::operation::KeptOp;
use crate::ops::Ops;
use tandem_base::{Extent, Origin};

/// The keys of three operations that are kept, by what they do to one byte.
#[derive(Clone, Copy, Debug)]
pub struct ByteKeys {
    /// The latest store to it.
    pub store: Option<u32>,
    /// The latest load of it that no later store to it follows in program order.
    pub load: Option<u32>,
    /// The latest such load with another source than that one.
    pub other: Option<u32>,
}

/// The later of the operation that is marked and one more.
fn later(ops: &Ops, mark: Option<u32>, key: u32, op: &KeptOp) -> Option<u32>
    ensures { result ≡ later_key (get ops.now) mark key op.now }
{
    match mark {
        None => Some(key),
        Some(held) => match ops.get(held) {
            None => Some(key),
            Some(old) => {
                if old.place.is_before(&op.place) {
                    Some(key)
                } else {
                    Some(held)
                }
            }
        },
    }
}

/// Whether two sources are the same.
pub fn same_source(a: Option<Origin>, b: Option<Origin>) -> bool
    ensures { result ≡ same_origin a b }
{
    match (a, b) {
        (None, None) => true,
        (Some(a), Some(b)) => a.hart == b.hart && a.tag == b.tag,
        _ => false,
    }
}

/// A mark, unless it is of the operation under this key.
fn without(mark: Option<u32>, key: u32) -> Option<u32>
    ensures { result ≡ without_key key mark }
{
    match mark {
        Some(held) => { if held == key { None } else { Some(held) } }
        None => None,
    }
}

impl ByteKeys {
    ghost use Rattle.std.specs.Prelude.{◌≡◌, true, false};
    ghost use Rattle.slab.specs.Slab.{get};
    ghost use Rattle.kept_ops.specs.Doublewords.{no_keys, keys_with, keys_without, keys_closed};
    ghost use Rattle.kept_ops.specs.Doublewords.{has_a_key, with_load};

    /// No keys.
    pub fn none() -> ByteKeys
        ensures { result ≡ no_keys }
    {
        ByteKeys {
            store: None,
            load: None,
            other: None,
        }
    }

    /// The marks after one load more of the byte at `x`, kept under this key.
    fn add_load(&mut self, ops: &Ops, key: u32, op: &KeptOp, x: u64)
        ensures { self.new ≡ with_load (get ops.now) x key op.now self.old }
    {
        let Some(held) = self.load else {
            self.load = Some(key);
            return;
        };
        let Some(last) = ops.get(held) else {
            self.load = Some(key);
            return;
        };
        let same = same_source(last.source(x), op.source(x));
        if last.place.is_before(&op.place) {
            if !same {
                self.other = self.load;
            }
            self.load = Some(key);
        } else if !same {
            self.other = later(ops, self.other, key, op);
        }
    }

    /// The marks at `x` after one operation more, kept under this key.
    #[tactic(auto, unfolding(crate::specs::Doublewords::keys_with))]
    pub fn add(&mut self, ops: &Ops, key: u32, op: &KeptOp, x: u64)
        ensures { self.new ≡ keys_with (get ops.now) x key op.now self.old }
    {
        let stores = op.stores(x);
        let loads = op.loads(x);
        if stores {
            self.store = later(ops, self.store, key, op);
        }
        if loads {
            self.add_load(ops, key, op, x);
        }
    }

    /// Those that aren't this key.
    #[tactic(auto, unfolding(crate::specs::Doublewords::keys_without))]
    pub fn without(self, key: u32) -> ByteKeys
        ensures { result ≡ keys_without key self }
    {
        ByteKeys {
            store: without(self.store, key),
            load: without(self.load, key),
            other: without(self.other, key),
        }
    }

    /// The keys at `x` once a store to an extent has retired.
    pub fn closed(self, extent: &Extent, x: u64) -> ByteKeys
        ensures { result ≡ keys_closed extent.now x self }
    {
        if extent.has(x) {
            ByteKeys {
                store: self.store,
                load: None,
                other: None,
            }
        } else {
            self
        }
    }

    /// Whether there is one.
    pub fn is_some(self) -> bool
        ensures { result ≡ has_a_key self }
    {
        self.store.is_some() || self.load.is_some() || self.other.is_some()
    }
}
