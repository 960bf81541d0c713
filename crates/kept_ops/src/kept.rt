//! The kept operations of a hart.

ghost use Rattle.std.specs.Prelude.{◌≡◌, ◌+◌, ◌<◌, ◌≤◌, true, false, ℕ, Some, option_copied};
ghost use Rattle.std.specs.List.{filter};
ghost use Rattle.slab.specs.Slab.{get, slab_len, values};
ghost use Rattle.kept_ops.specs.Doublewords.{marks_of, op_at};
ghost use Rattle.kept_ops.specs.Marks.{marks_staying, over, other_than};
ghost use Rattle.kept_ops.specs.Tables.{AreArrived, op_stays};
ghost use Rattle.kept_ops.specs.Words.{AreMarked, keys_at};
ghost use Rattle.kept_ops.specs.declared.operation.KeptOp.{KeptOp as Op};

use crate::arrivals::{Arrival, Arrivals};
use crate::byte_keys::{ByteKeys, same_source};
use crate::division::division_of;
use crate::operation::KeptOp;
use crate::ops::Ops;
use crate::words::Words;
use std::alloc::{AllocError, Global};
use std::marker::Model;
use tandem_base::{Extent, Origin, Position, Took};

/// The performed operations of a hart that may still matter: those after its oldest open report. Of
/// each byte it knows the latest store to it, and the latest loads of it, without a search.
#[derive(Drop)]
pub struct Kept {
    ops: Ops,
    arrivals: Arrivals,
    words: Words,
    capacity: u32,
}

impl Model for Kept {
    ghost use Rattle.std.specs.Prelude.{◌≡◌, ◌≤◌, ◌*◌};
    ghost use Rattle.slab.specs.Slab.{get, slab_len, values};
    ghost use Rattle.kept_ops.specs.Doublewords.{marked_words};
    ghost use Rattle.kept_ops.specs.Tables.{KeptTable, AreArrived};
    ghost use Rattle.kept_ops.specs.Words.{AreMarked};

    ghost Value = { KeptTable };

    ghost view = { λ k. record {
      ops = values k.ops;
      words = marked_words (get k.ops) k.words.words k.words.index.entries;
      capacity = k.capacity;
    } };

    ghost invariant = { λ k. AreArrived k.ops k.arrivals.items × (slab_len k.ops ≤ k.capacity)
        × (k.capacity ≤ k.ops.capacity) × (k.arrivals.capacity ≡ k.capacity)
        × AreMarked k.ops k.words × (2 * k.capacity ≤ k.words.words.capacity)
        × (2 * k.capacity ≤ k.words.index.capacity) };
}

/// Lets one operation go that doesn't stay, and answers whether there was one.
fn drop_one(
    ops: &mut Ops,
    arrivals: &mut Arrivals,
    words: &mut Words,
    oldest: Option<Position>,
) -> bool
    requires arrived { AreArrived ops.old arrivals.old.items }
    requires marked { AreMarked ops.old words.old }
    ensures arrived { AreArrived ops.new arrivals.new.items }
    ensures staying { filter (op_stays oldest) (values ops.new) ≡ filter (op_stays oldest) (values ops.old) }
    ensures fewer { result ≡ true → slab_len ops.new + 1 ≡ slab_len ops.old }
    ensures len { slab_len ops.new ≤ slab_len ops.old }
    ensures all { result ≡ false → (key : ℕ) (o : Op) → get ops.new key ≡ Some o → op_stays oldest o ≡ true }
    ensures marked { AreMarked ops.new words.new }
    ensures marks { (x : ℕ) → marks_staying oldest (marks_of (get ops.new) (keys_at words.new x))
        ≡ marks_staying oldest (marks_of (get ops.old) (keys_at words.old x)) }
    ensures words { words.new.words.capacity ≡ words.old.words.capacity }
    ensures index { words.new.index.capacity ≡ words.old.index.capacity }
    ensures capacity { ops.new.capacity ≡ ops.old.capacity }
    ensures room { arrivals.new.capacity ≡ arrivals.old.capacity }
{
    match arrivals.take(oldest) {
        None => false,
        Some(arrival) => {
            let extent = ops.extent(arrival.key);
            ops.remove(arrival.key);
            words.forget(arrival.key, &extent);
            true
        }
    }
}

/// Lets all operations go that don't stay.
fn drop_all(ops: &mut Ops, arrivals: &mut Arrivals, words: &mut Words, oldest: Option<Position>)
    requires arrived { AreArrived ops.old arrivals.old.items }
    requires marked { AreMarked ops.old words.old }
    ensures arrived { AreArrived ops.new arrivals.new.items }
    ensures left { values ops.new ≡ filter (op_stays oldest) (values ops.old) }
    ensures len { slab_len ops.new ≤ slab_len ops.old }
    ensures marked { AreMarked ops.new words.new }
    ensures marks { (x : ℕ) → marks_of (get ops.new) (keys_at words.new x)
        ≡ marks_staying oldest (marks_of (get ops.old) (keys_at words.old x)) }
    ensures capacity { ops.new.capacity ≡ ops.old.capacity }
    ensures room { arrivals.new.capacity ≡ arrivals.old.capacity }
    ensures words { words.new.words.capacity ≡ words.old.words.capacity }
    ensures index { words.new.index.capacity ≡ words.old.index.capacity }
{
    let mut more = true;
    while more {
        more = drop_one(ops, arrivals, words, oldest);
    }
}

/// The operation under a key, where there is a key.
fn op_under(ops: &Ops, mark: Option<u32>) -> Option<&KeptOp>
    ensures { option_copied result ≡ op_at (get ops.now) mark }
{
    match mark {
        None => None,
        Some(key) => ops.get(key),
    }
}

/// The same, where it was performed after a place.
fn over(ops: &Ops, mark: Option<u32>, after: Position) -> Option<&KeptOp>
    ensures { option_copied result ≡ over after (op_at (get ops.now) mark) }
{
    match op_under(ops, mark) {
        None => None,
        Some(op) => { if op.is_after(after) { Some(op) } else { None } }
    }
}

/// The key of the latest of two loads of the byte at `x` whose source isn't this one.
fn other_key(ops: &Ops, keys: &ByteKeys, x: u64, source: Option<Origin>) -> Option<u32>
    ensures { op_at (get ops.now) result
        ≡ other_than x source (op_at (get ops.now) keys.now.load) (op_at (get ops.now) keys.now.other) }
{
    match op_under(ops, keys.load) {
        None => None,
        Some(load) => {
            if same_source(load.source(x), source) {
                keys.other
            } else {
                keys.load
            }
        }
    }
}

impl Kept {
    ghost use Rattle.std.specs.Prelude.{◌≡◌, ◌≤◌, List, [], length, IfOk, ℕ, option_copied};
    ghost use Rattle.std.specs.List.{filter};
    ghost use Rattle.tandem_base.specs.Room.{took};
    ghost use Rattle.kept_ops.specs.declared.operation.KeptOp.{KeptOp as Op};
    ghost use Rattle.kept_ops.specs.Marks.{IsLatestThat, loads_from_elsewhere, marks_closed, marks_staying};
    ghost use Rattle.kept_ops.specs.Marks.{other_than, over, passes_over, since_closed};
    ghost use Rattle.kept_ops.specs.Operations.{loads_at, stores_at};
    ghost use Rattle.kept_ops.specs.Tables.{KeptTable, IsAfterKeep, KnowsLatest, op_stays, marks_at, marks_after_keep};

    /// An empty table, with room for `capacity` operations, of which there may be at most 2^31 - 1. No
    /// other call takes memory.
    pub fn new(alloc: Global, capacity: u32) -> Result<Kept, AllocError>
        ensures empty { IfOk result (λ kept. kept ≡ record { ops = []; words = []; capacity = capacity }) }
        ensures latest { IfOk result (λ kept. (x : ℕ) → KnowsLatest kept x []) }
    {
        let words = capacity.checked_mul(2).ok_or(AllocError)?;
        Ok(Kept {
            ops: Ops::new(alloc, capacity)?,
            arrivals: Arrivals::new(alloc, capacity)?,
            words: Words::new(alloc, words)?,
            capacity,
        })
    }

    /// How many operations are kept.
    pub fn count(&self) -> usize
        ensures count { result ≡ length self.now.ops }
        ensures room { length self.now.ops ≤ self.now.capacity }
    {
        self.ops.len()
    }

    /// Keeps an operation, where there is room for one more.
    pub fn keep(&mut self, op: &KeptOp) -> Took
        ensures took { result ≡ took (length self.old.ops) self.old.capacity }
        ensures ops { IsAfterKeep result op.now self.old.ops self.new.ops }
        ensures marks { (x : ℕ) → marks_at self.new x ≡ marks_after_keep result x op.now (marks_at self.old x) }
        ensures latest { (x : ℕ) → (since longer : List Op) → KnowsLatest self.old x since
            → IsAfterKeep result op.now since longer → KnowsLatest self.new x longer }
        ensures capacity { self.new.capacity ≡ self.old.capacity }
    {
        if self.ops.len() == self.capacity as usize {
            return Took::Full(self.capacity);
        }
        let division = division_of(op);
        let key = self.ops.insert(op, division);
        self.arrivals.add(Arrival {
            place: op.place,
            key,
        });
        self.words.mark(&self.ops, key, op, division);
        Took::Yes
    }

    /// Keeps only the operations after a place, and none where there is none.
    pub fn prune(&mut self, oldest: Option<Position>)
        ensures ops { self.new.ops ≡ filter (op_stays oldest) self.old.ops }
        ensures marks { (x : ℕ) → marks_at self.new x ≡ marks_staying oldest (marks_at self.old x) }
        ensures latest { (x : ℕ) → (since : List Op) → KnowsLatest self.old x since
            → KnowsLatest self.new x (filter (op_stays oldest) since) }
        ensures capacity { self.new.capacity ≡ self.old.capacity }
    {
        drop_all(&mut self.ops, &mut self.arrivals, &mut self.words, oldest);
    }

    /// A store to the extent retires, be it plain or that of an SC or AMO: no load of its bytes that is
    /// kept is the last access to them in program order any longer.
    pub fn store_retires(&mut self, extent: &Extent)
        ensures ops { self.new.ops ≡ self.old.ops }
        ensures marks { (x : ℕ) → marks_at self.new x ≡ marks_closed extent.now x (marks_at self.old x) }
        ensures latest { (x : ℕ) → (since : List Op) → KnowsLatest self.old x since
            → KnowsLatest self.new x (since_closed extent.now x since) }
        ensures capacity { self.new.capacity ≡ self.old.capacity }
    {
        self.words.close(extent);
    }

    /// The latest store to the byte at `addr`, where it was performed after a place.
    pub fn store_over(&self, addr: u64, after: Position) -> Option<&KeptOp>
        ensures mark { option_copied result ≡ over after (marks_at self.now addr).store }
        ensures latest { (since : List Op) → KnowsLatest self.now addr since
            → IsLatestThat (passes_over (stores_at addr) after) self.now.ops (option_copied result) }
    {
        let keys = self.words.at(addr);
        over(&self.ops, keys.store, after)
    }

    /// The latest load of the byte at `addr` since a store to it retired, where it was performed after a
    /// place.
    pub fn load_over(&self, addr: u64, after: Position) -> Option<&KeptOp>
        ensures mark { option_copied result ≡ over after (marks_at self.now addr).load }
        ensures latest { (since : List Op) → KnowsLatest self.now addr since
            → IsLatestThat (passes_over (loads_at addr) after) since (option_copied result) }
    {
        let keys = self.words.at(addr);
        over(&self.ops, keys.load, after)
    }

    /// The latest load of the byte at `addr`, since a store to it retired, that has another source than
    /// this one, where it was performed after a place. None is the source of the initial value.
    pub fn other_load_over(
        &self,
        addr: u64,
        source: Option<Origin>,
        after: Position,
    ) -> Option<&KeptOp>
        ensures mark { option_copied result
            ≡ over after (other_than addr source (marks_at self.now addr).load (marks_at self.now addr).other) }
        ensures latest { (since : List Op) → KnowsLatest self.now addr since
            → IsLatestThat (passes_over (loads_from_elsewhere addr source) after) since (option_copied result) }
    {
        let keys = self.words.at(addr);
        let mark = other_key(&self.ops, &keys, addr, source);
        over(&self.ops, mark, after)
    }
}
