//! An Insert or a Bypass of bytes of a retired store.

ghost use Rattle.std.specs.Prelude.{◌≡◌, ◌+◌, ◌<◌, ◌≤◌, ◌^◌, length, is_some, true, IfSome, Some};
ghost use Rattle.store_buffer.specs.Searches.{lowest_below};
ghost use Rattle.store_buffer.specs.Store as Spec;

use crate::store::{Store, is_among, is_untouched};
use msg_frames::Piece;

/// What is said of an Insert or a Bypass of a retired store.
#[derive(Clone, Copy, Debug, PartialEq, Eq)]
pub enum Taken {
    /// The bytes are the store's.
    Yes,
    /// No store of the tag has these bytes, or one of them was in an Insert or a Bypass.
    Unknown,
    /// The byte at the lowest address at which it isn't the store's: the store has `want`.
    Wrong { at: u64, want: u8, got: u8 },
    /// The store is aligned, and these bytes aren't all of it.
    Torn,
}

impl Store {
    /// Whether all bytes of a piece are among the store's.
    fn covers(&self, piece: &Piece) -> bool
        ensures { result ≡ Spec.covers self.now piece.now }
    {
        let whole = &self.entry.piece;
        whole.addr <= piece.addr
            && u128::from(piece.addr) + u128::from(piece.bytes.len())
                <= u128::from(whole.addr) + u128::from(whole.bytes.len())
    }

    /// Whether one of the first `count` bytes is of the piece, and was in an Insert or a Bypass.
    fn is_touched(&self, piece: &Piece, count: u8) -> bool
        requires { count ≤ 8 }
        ensures { result ≡ is_some (lowest_below (Spec.is_byte_again piece.now self.now) count) }
    {
        let mut touched = false;
        for k in 0..count {
            let again = is_among(piece.addr, piece.bytes.len(), self.address(k))
                && !is_untouched(self.state(k));
            if again {
                touched = true;
            }
        }
        touched
    }

    /// Whether all bytes of a piece are among the store's, and none was in an Insert or a Bypass.
    #[tactic(auto, unfolding(crate::specs::Store::is_new_part))]
    pub fn is_new_part(&self, piece: &Piece) -> bool
        ensures value { result ≡ Spec.is_new_part self.now piece.now }
        ensures covers { result ≡ true → Spec.covers self.now piece.now ≡ true }
    {
        self.covers(piece) && !self.is_touched(piece, 8)
    }

    /// Whether byte `k` of a piece isn't the store's.
    fn differs(&self, piece: &Piece, k: u8) -> bool
        requires covers { Spec.covers self.now piece.now ≡ true }
        requires there { k < length piece.now.bytes }
        ensures { result ≡ Spec.differs self.now piece.now k }
    {
        self.byte(piece, k) != piece.bytes.byte(k)
    }

    /// The byte of the store where byte `k` of a piece is.
    pub fn byte(&self, piece: &Piece, k: u8) -> u8
        requires covers { Spec.covers self.now piece.now ≡ true }
        requires there { k < length piece.now.bytes }
        ensures { result ≡ Spec.byte_below self.now piece.now k }
    {
        let _size = self.entry.piece.bytes.len();
        let from = (piece.addr - self.entry.piece.addr) as u8;
        self.entry.piece.bytes.byte(from + k)
    }

    /// The lowest byte of a piece that isn't the store's.
    #[tactic(auto, unfolding(crate::specs::Store::lowest_wrong_byte))]
    pub fn lowest_wrong(&self, piece: &Piece) -> Option<u8>
        requires { Spec.covers self.now piece.now ≡ true }
        ensures value { result ≡ Spec.lowest_wrong_byte self.now piece.now }
        ensures there { IfSome result (λ k. k < length piece.now.bytes) }
    {
        let mut lowest = None;
        for k in 0..piece.bytes.len() {
            if lowest.is_none() && self.differs(piece, k) {
                lowest = Some(k);
            }
        }
        lowest
    }

    /// Whether the store is aligned, and the piece isn't all of it. A store has 1, 2, 4 or 8 bytes.
    pub fn is_torn_by(&self, piece: &Piece) -> bool
        ensures { result ≡ Spec.is_torn_by self.now piece.now }
    {
        let whole = &self.entry.piece;
        let aligned = whole.addr % u64::from(whole.bytes.len()) == 0;
        aligned && !(piece.addr == whole.addr && piece.bytes.len() == whole.bytes.len())
    }

    /// What is said of a piece for this store.
    pub fn answer(&self, piece: &Piece) -> Taken
        requires { self.now.entry.piece.addr + length self.now.entry.piece.bytes ≤ 2 ^ 64 }
        ensures { result ≡ Spec.answer_for (Some self.now) piece.now }
    {
        if !self.is_new_part(piece) {
            return Taken::Unknown;
        }
        if let Some(k) = self.lowest_wrong(piece) {
            return Taken::Wrong {
                at: piece.addr + u64::from(k),
                want: self.byte(piece, k),
                got: piece.bytes.byte(k),
            };
        }
        if self.is_torn_by(piece) {
            Taken::Torn
        } else {
            Taken::Yes
        }
    }
}
