//! The least tags of the parts that a message performed after one of them.

ghost use Rattle.std.specs.Prelude.{◌≡◌, ◌+◌, ◌<◌, ◌≤◌, ◌==◌, ℕ, min, option_copied, if◌then◌else◌};

use crate::bound::{Bound, bound_of};
use crate::rule::DrainRule;
use crate::worst::Worst;
use merge_buffer::Part;
use store_buffer::{Entry, Stores};
use tandem_base::OpName;

/// The least tag of some parts, and of those that have each byte of their line; 2^64 - 1 where there is
/// none, below which no tag is that is asked for.
#[derive(Drop)]
pub struct Seen {
    /// Of all.
    pub all: u64,
    /// Of each byte of the line.
    pub bytes: [u64; 64],
}

impl Seen {
    ghost use Rattle.drain_rules.specs.Seen.{
      IsAnswerOf,
      Notes,
      byte_least,
      sees_first,
      least_among,
      least_over,
      lowered_byte,
    };
    ghost use Rattle.drain_rules.specs.Seen.{no_tag};

    /// The tags of no part.
    pub fn new() -> Seen
        ensures all { result.all ≡ no_tag }
        ensures bytes { (j : ℕ) → byte_least result j ≡ no_tag }
    {
        Seen {
            all: u64::MAX,
            bytes: [u64::MAX; 64],
        }
    }

    /// Lowers the tag at a byte of the line.
    fn lower(&mut self, j: u8, tag: u64)
        requires { j < 64 }
        ensures bytes { (i : ℕ) → i < 64
            → byte_least self.new i ≡ (if i == j then min (byte_least self.old i) tag else byte_least self.old i) }
        ensures all { self.new.all ≡ self.old.all }
    {
        let least = self.bytes[usize::from(j)];
        if tag < least {
            self.bytes[usize::from(j)] = tag;
        }
    }

    /// Lowers the tags at `count` bytes, from byte `first` up.
    fn lower_all(&mut self, first: u8, count: u8, tag: u64)
        requires { first + count < 128 }
        ensures bytes { first + count ≤ 64 → (i : ℕ) → i < 64
            → byte_least self.new i ≡ lowered_byte self.old first count tag i }
        ensures all { self.new.all ≡ self.old.all }
    {
        for k in 0..count {
            self.lower((first + k) % 64, tag);
        }
    }

    /// Takes one part more.
    pub fn note(&mut self, part: &Part)
        ensures { Notes self.old self.new part.now }
    {
        self.lower_all(
            (part.piece.addr % 64) as u8,
            part.piece.bytes.len(),
            part.tag,
        );
        if part.tag < self.all {
            self.all = part.tag;
        }
    }

    /// The least tag at `count` bytes, from byte `first` up.
    fn least_of(&self, first: u8, count: u8) -> u64
        requires { first + count < 128 }
        ensures { result ≡ least_among self.now first count }
    {
        let mut least = u64::MAX;
        for k in 0..count {
            let tag = self.bytes[usize::from((first + k) % 64)];
            if tag < least {
                least = tag;
            }
        }
        least
    }

    /// The least tag at the bytes that a bound names, or of all.
    fn least(&self, bound: &Bound) -> u64
        ensures { result ≡ least_over self.now bound.now.over }
    {
        match &bound.over {
            None => self.all,
            Some(extent) => self.least_of((extent.addr % 64) as u8, extent.len),
        }
    }

    /// Whether a store that waits, or one of these parts, is one that the bound has.
    fn has_first(&self, bound: &Bound, stores: &Stores) -> bool
        ensures { result ≡ sees_first stores.now self.now bound.now }
    {
        bound.waiting(stores).is_some() || self.least(bound) < bound.below
    }

    /// The answer of a rule for a part, which has this name and index, and whose store has this entry.
    pub fn answer(
        &self,
        rule: DrainRule,
        index: usize,
        second: OpName,
        part: &Part,
        entry: Option<&Entry>,
        stores: &Stores,
    ) -> Option<Worst>
        ensures { IsAnswerOf stores.now self.now rule index second part.now (option_copied entry.entry) result }
    {
        let bound = match bound_of(rule, part, entry) {
            None => return None,
            Some(bound) => bound,
        };
        let _below = bound.below;
        if self.has_first(&bound, stores) {
            Some(Worst {
                rule,
                index,
                second,
                bound,
            })
        } else {
            None
        }
    }
}
