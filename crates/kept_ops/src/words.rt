//! The doublewords that have a mark.

ghost use Rattle.std.specs.Prelude.{◌≡◌, ◌+◌, ◌-◌, ◌/◌};

use crate::byte_keys::ByteKeys;
use crate::division::Division;
use crate::doubleword::Doubleword;
use crate::operation::KeptOp;
use crate::ops::Ops;
use crate::word_slots::{close_at, forget_at, has_number, mark_at, word_under};
use key_tree::KeyTree;
use slab::Slab;
use std::alloc::{AllocError, Global};
use tandem_base::Extent;

/// The doublewords that have a mark, each found by its number.
#[derive(Drop)]
pub struct Words {
    words: Slab<Doubleword>,
    index: KeyTree,
    /// Under which key the last one was found, for the next look-up.
    last: usize,
}

/// The number of the doubleword that holds the first byte.
fn first_word(extent: &Extent) -> u64
    ensures { result ≡ extent.now.addr / 8 }
{
    extent.addr / 8
}

/// The number of the doubleword that holds the last byte.
fn last_word(extent: &Extent) -> u64
    ensures { result ≡ (extent.now.addr + extent.now.len - 1) / 8 }
{
    (extent.addr + u64::from(extent.len - 1)) / 8
}

impl Words {
    ghost use Rattle.std.specs.Prelude.{◌≡◌, ◌≢◌, ◌+◌, ◌-◌, ◌/◌, ◌<◌, ◌≤◌, ◌^◌, ℕ, Some, [], IfOk, IfNone};
    ghost use Rattle.slab.specs.Slab.{get, slab_len};
    ghost use Rattle.key_tree.specs.Entries.{number_at, AreDistinct};
    ghost use Rattle.kept_ops.specs.Doublewords.{no_keys, keys_in, keys_with, keys_without, keys_closed};
    ghost use Rattle.kept_ops.specs.Divisions.{IsEven};
    ghost use Rattle.kept_ops.specs.Words.{AreFound, AllMarked, AllMarkedBut, keys_at, changed_in, changed_by};

    /// No doublewords, with room for `capacity` of them.
    pub fn new(alloc: Global, capacity: u32) -> Result<Words, AllocError>
        ensures found { IfOk result (λ made. AreFound made.words made.index) }
        ensures marked { IfOk result (λ made. AllMarked made.words) }
        ensures keys { IfOk result (λ made. (x : ℕ) → keys_at made x ≡ no_keys) }
        ensures empty { IfOk result (λ made. made.index.entries ≡ []) }
        ensures words { IfOk result (λ made. capacity ≤ made.words.capacity) }
        ensures index { IfOk result (λ made. made.index.capacity ≡ capacity) }
        ensures len { IfOk result (λ made. slab_len made.words ≡ 0) }
    {
        Ok(Words {
            words: Slab::with_capacity(alloc, capacity as usize)?,
            index: KeyTree::new(alloc, capacity)?,
            last: 0,
        })
    }

    /// The key of a doubleword, if it has a mark.
    fn find(&self, number: u64) -> Option<usize>
        requires { AreFound self.now.words self.now.index }
        ensures number { result ≡ number_at self.now.index number }
        ensures distinct { IfNone result (AreDistinct self.now.index.entries) }
    {
        if has_number(&self.words, self.last, number) {
            return Some(self.last);
        }
        self.index.get(number)
    }

    /// The key of a doubleword, which is put there without marks where it has none.
    fn reach(&mut self, number: u64) -> usize
        requires found { AreFound self.old.words self.old.index }
        requires marked { AllMarked self.old.words }
        requires room { slab_len self.old.words < self.old.words.capacity }
        requires keys { slab_len self.old.words < self.old.index.capacity }
        ensures found { AreFound self.new.words self.new.index }
        ensures there { number_at self.new.index number ≡ Some result }
        ensures marked { AllMarkedBut self.new.words result }
        ensures keys { (x : ℕ) → keys_at self.new x ≡ keys_at self.old x }
        ensures len { slab_len self.new.words ≤ slab_len self.old.words + 1 }
        ensures capacity { self.new.words.capacity ≡ self.old.words.capacity }
        ensures index { self.new.index.capacity ≡ self.old.index.capacity }
    {
        match self.find(number) {
            Some(at) => at,
            None => {
                let at = self.words.insert_reserved(Doubleword::new(number));
                self.index.put(number, at);
                at
            }
        }
    }

    /// Lets a doubleword go if it has no mark left.
    fn settle(&mut self, number: u64, at: usize)
        requires found { AreFound self.old.words self.old.index }
        requires there { number_at self.old.index number ≡ Some at }
        requires marked { AllMarkedBut self.old.words at }
        ensures found { AreFound self.new.words self.new.index }
        ensures marked { AllMarked self.new.words }
        ensures keys { (x : ℕ) → keys_at self.new x ≡ keys_at self.old x }
        ensures len { slab_len self.new.words ≤ slab_len self.old.words }
        ensures capacity { self.new.words.capacity ≡ self.old.words.capacity }
        ensures index { self.new.index.capacity ≡ self.old.index.capacity }
    {
        if word_under(&self.words, at).is_empty() {
            self.words.remove(at);
            self.index.take(number);
        }
    }

    /// Marks an operation, kept under a key, at its bytes in one doubleword.
    fn mark_in(&mut self, number: u64, ops: &Ops, key: u32, op: &KeptOp, division: Division)
        requires found { AreFound self.old.words self.old.index }
        requires marked { AllMarked self.old.words }
        requires number { number < 2 ^ 61 }
        requires even { IsEven division op.now }
        requires room { slab_len self.old.words < self.old.words.capacity }
        requires keys { slab_len self.old.words < self.old.index.capacity }
        ensures found { AreFound self.new.words self.new.index }
        ensures marked { AllMarked self.new.words }
        ensures keys { (x : ℕ) → keys_at self.new x
            ≡ changed_in (λ x keys. keys_with (get ops.now) x key op.now keys) number x (keys_at self.old x) }
        ensures len { slab_len self.new.words ≤ slab_len self.old.words + 1 }
        ensures capacity { self.new.words.capacity ≡ self.old.words.capacity }
        ensures index { self.new.index.capacity ≡ self.old.index.capacity }
    {
        let at = self.reach(number);
        self.last = at;
        mark_at(&mut self.words, at, ops, key, op, division);
        self.settle(number, at);
    }

    /// Takes the marks of an operation, kept under a key, away from one doubleword.
    fn forget_in(&mut self, number: u64, key: u32)
        requires found { AreFound self.old.words self.old.index }
        requires marked { AllMarked self.old.words }
        ensures found { AreFound self.new.words self.new.index }
        ensures marked { AllMarked self.new.words }
        ensures keys { (x : ℕ) → keys_at self.new x
            ≡ changed_in (λ x keys. keys_without key keys) number x (keys_at self.old x) }
        ensures len { slab_len self.new.words ≤ slab_len self.old.words }
        ensures capacity { self.new.words.capacity ≡ self.old.words.capacity }
        ensures index { self.new.index.capacity ≡ self.old.index.capacity }
    {
        match self.find(number) {
            None => {}
            Some(at) => {
                forget_at(&mut self.words, at, key);
                self.settle(number, at);
            }
        }
    }

    /// Takes the marks of loads of these bytes away from one doubleword.
    fn close_in(&mut self, number: u64, extent: &Extent)
        requires found { AreFound self.old.words self.old.index }
        requires marked { AllMarked self.old.words }
        requires number { number < 2 ^ 61 }
        ensures found { AreFound self.new.words self.new.index }
        ensures marked { AllMarked self.new.words }
        ensures keys { (x : ℕ) → keys_at self.new x
            ≡ changed_in (λ x keys. keys_closed extent.now x keys) number x (keys_at self.old x) }
        ensures len { slab_len self.new.words ≤ slab_len self.old.words }
        ensures capacity { self.new.words.capacity ≡ self.old.words.capacity }
        ensures index { self.new.index.capacity ≡ self.old.index.capacity }
    {
        match self.find(number) {
            None => {}
            Some(at) => {
                close_at(&mut self.words, at, extent);
                self.settle(number, at);
            }
        }
    }

    /// The keys at the byte at `x`.
    pub fn at(&self, x: u64) -> ByteKeys
        requires { AreFound self.now.words self.now.index }
        ensures { result ≡ keys_at self.now x }
    {
        match self.find(x / 8) {
            None => ByteKeys::none(),
            Some(at) => word_under(&self.words, at).at((x % 8) as u8),
        }
    }

    /// Marks an operation, kept under a key, at each of its bytes.
    pub fn mark(&mut self, ops: &Ops, key: u32, op: &KeptOp, division: Division)
        requires found { AreFound self.old.words self.old.index }
        requires marked { AllMarked self.old.words }
        requires even { IsEven division op.now }
        requires room { slab_len self.old.words + 2 ≤ self.old.words.capacity }
        requires keys { slab_len self.old.words + 2 ≤ self.old.index.capacity }
        ensures found { AreFound self.new.words self.new.index }
        ensures marked { AllMarked self.new.words }
        ensures keys { (x : ℕ) → keys_at self.new x
            ≡ changed_by (λ x keys. keys_with (get ops.now) x key op.now keys) op.now.extent x (keys_at self.old x) }
        ensures capacity { self.new.words.capacity ≡ self.old.words.capacity }
        ensures index { self.new.index.capacity ≡ self.old.index.capacity }
    {
        let first = first_word(&op.extent);
        let last = last_word(&op.extent);
        self.mark_in(first, ops, key, op, division);
        if last != first {
            self.mark_in(last, ops, key, op, division);
        }
    }

    /// Takes the marks of an operation, kept under a key, away.
    pub fn forget(&mut self, key: u32, extent: &Extent)
        requires found { AreFound self.old.words self.old.index }
        requires marked { AllMarked self.old.words }
        ensures found { AreFound self.new.words self.new.index }
        ensures marked { AllMarked self.new.words }
        ensures keys { (x : ℕ) → keys_at self.new x
            ≡ changed_by (λ x keys. keys_without key keys) extent.now x (keys_at self.old x) }
        ensures capacity { self.new.words.capacity ≡ self.old.words.capacity }
        ensures index { self.new.index.capacity ≡ self.old.index.capacity }
    {
        let first = first_word(extent);
        let last = last_word(extent);
        self.forget_in(first, key);
        if last != first {
            self.forget_in(last, key);
        }
    }

    /// Takes the marks of loads of these bytes away.
    pub fn close(&mut self, extent: &Extent)
        requires found { AreFound self.old.words self.old.index }
        requires marked { AllMarked self.old.words }
        ensures found { AreFound self.new.words self.new.index }
        ensures marked { AllMarked self.new.words }
        ensures keys { (x : ℕ) → keys_at self.new x
            ≡ changed_by (λ x keys. keys_closed extent.now x keys) extent.now x (keys_at self.old x) }
        ensures capacity { self.new.words.capacity ≡ self.old.words.capacity }
        ensures index { self.new.index.capacity ≡ self.old.index.capacity }
    {
        let first = first_word(extent);
        let last = last_word(extent);
        self.close_in(first, extent);
        if last != first {
            self.close_in(last, extent);
        }
    }
}
