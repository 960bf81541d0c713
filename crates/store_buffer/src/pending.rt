//! What waits of a store, and which of two stores is the newer one.

ghost use Rattle.std.specs.Prelude.{◌≡◌, ◌&&◌, nat_lt, is_some, option_copied, true};
ghost use Rattle.std.specs.Option.{unwrap_or};
ghost use Rattle.store_buffer.specs.Store.{lowest_open, stays_open};
ghost use Rattle.store_buffer.specs.Waiting as Spec;

use crate::store::{Store, is_performed};
use tandem_base::OpName;

/// A byte of a store that retired and isn't performed there.
#[derive(Clone, Copy, Debug, PartialEq, Eq)]
pub struct Pending {
    /// The hart.
    pub hart: u8,
    /// The tag of the store.
    pub tag: u64,
    /// The byte.
    pub byte: u8,
}

impl Store {
    /// Whether the byte at an address is one of the store's that isn't performed.
    pub fn waits_at(&self, addr: u64) -> bool
        ensures { result ≡ Spec.waits_at addr self.now }
    {
        let piece = &self.entry.piece;
        if addr < piece.addr || addr - piece.addr >= u64::from(piece.bytes.len()) {
            return false;
        }
        !is_performed(self.state((addr - piece.addr) as u8))
    }

    /// Whether its tag is below a bound, and its byte at an address waits.
    pub fn waits_at_below(&self, addr: u64, below: u64) -> bool
        ensures { result ≡ (nat_lt self.now.tag below && Spec.waits_at addr self.now) }
    {
        self.tag < below && self.waits_at(addr)
    }

    /// Whether its tag is below a bound, and one of its bytes waits.
    pub fn is_open_below(&self, below: u64) -> bool
        ensures { result ≡ (nat_lt self.now.tag below && stays_open self.now) }
    {
        self.tag < below && self.is_open()
    }

    /// The byte at an address at which it waits, of a hart.
    pub fn pending(&self, hart: u8, addr: u64) -> Pending
        requires { Spec.waits_at addr self.now ≡ true }
        ensures { result ≡ Spec.pending_of hart addr self.now }
    {
        let piece = &self.entry.piece;
        let _size = piece.bytes.len();
        Pending {
            hart,
            tag: self.tag,
            byte: piece.bytes.byte((addr - piece.addr) as u8),
        }
    }

    /// The name of what waits of a store of a hart.
    pub fn waiting_name(&self, hart: u8) -> OpName
        ensures { result ≡ Spec.waiting_name hart self.now }
    {
        OpName {
            hart,
            tag: self.tag,
            part: self.lowest_open().unwrap_or(0),
        }
    }
}

/// Of two stores the one of the greater tag.
pub fn newer_of<'a>(one: Option<&'a Store>, other: Option<&'a Store>) -> Option<&'a Store>
    ensures { option_copied result ≡ Spec.newer_of (option_copied one.entry) (option_copied other.entry) }
{
    match (one, other) {
        (None, _) => other,
        (_, None) => one,
        (Some(s), Some(t)) => { if t.tag < s.tag { one } else { other } }
    }
}
