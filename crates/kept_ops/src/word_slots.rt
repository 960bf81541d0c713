//! What is done to a doubleword under its key.

ghost use Rattle.std.specs.Prelude.{◌≡◌, ◌<◌, ◌^◌, Some, true};
ghost use Rattle.slab.specs.Slab.{get, slab_len};
ghost use Rattle.kept_ops.specs.declared.doubleword.Doubleword.{Doubleword as Word};
ghost use Rattle.kept_ops.specs.Divisions.{IsEven};
ghost use Rattle.kept_ops.specs.Doublewords.{keys_with, keys_without, keys_closed};
ghost use Rattle.kept_ops.specs.Words.{IsChanged};

use crate::division::Division;
use crate::doubleword::Doubleword;
use crate::operation::KeptOp;
use crate::ops::Ops;
use slab::Slab;
use tandem_base::Extent;

/// Whether the doubleword of this number is under a key.
pub fn has_number(words: &Slab<Doubleword>, at: usize, number: u64) -> bool
    ensures { result ≡ true → (word : Word) × (get words.now at ≡ Some word) × (word.number ≡ number) }
{
    match words.get(at) {
        Some(word) => word.number == number,
        None => false,
    }
}

/// Marks an operation at its bytes in the doubleword under a key.
pub fn mark_at(
    words: &mut Slab<Doubleword>,
    at: usize,
    ops: &Ops,
    key: u32,
    op: &KeptOp,
    division: Division,
)
    requires there { (word : Word) × (get words.old at ≡ Some word) × (word.number < 2 ^ 61) }
    requires even { IsEven division op.now }
    ensures changed { IsChanged (λ x keys. keys_with (get ops.now) x key op.now keys) words.old words.new at }
    ensures len { slab_len words.new ≡ slab_len words.old }
    ensures capacity { words.new.capacity ≡ words.old.capacity }
{
    match words.get_mut(at) {
        Some(word) => word.mark(ops, key, op, division),
        None => unreachable!(),
    }
}

/// Takes the marks of the operation under `key` away from the doubleword under a key.
pub fn forget_at(words: &mut Slab<Doubleword>, at: usize, key: u32)
    requires { (word : Word) × (get words.old at ≡ Some word) }
    ensures changed { IsChanged (λ x keys. keys_without key keys) words.old words.new at }
    ensures len { slab_len words.new ≡ slab_len words.old }
    ensures capacity { words.new.capacity ≡ words.old.capacity }
{
    match words.get_mut(at) {
        Some(word) => word.forget(key),
        None => unreachable!(),
    }
}

/// Takes the marks of loads of these bytes away from the doubleword under a key.
pub fn close_at(words: &mut Slab<Doubleword>, at: usize, extent: &Extent)
    requires { (word : Word) × (get words.old at ≡ Some word) × (word.number < 2 ^ 61) }
    ensures changed { IsChanged (λ x keys. keys_closed extent.now x keys) words.old words.new at }
    ensures len { slab_len words.new ≡ slab_len words.old }
    ensures capacity { words.new.capacity ≡ words.old.capacity }
{
    match words.get_mut(at) {
        Some(word) => word.close(extent),
        None => unreachable!(),
    }
}

/// The doubleword under a key, which is there.
pub fn word_under(words: &Slab<Doubleword>, at: usize) -> &Doubleword
    requires { (word : Word) × (get words.now at ≡ Some word) }
    ensures { get words.now at ≡ Some result.now }
{
    match words.get(at) {
        Some(word) => word,
        None => unreachable!(),
    }
}
