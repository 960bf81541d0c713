//! One to eight bytes in a row.

ghost use Rattle.std.specs.Prelude.{◌≡◌, ◌<◌, ◌≤◌, ◌↔◌, length, slice_index, IsSome, IfSome};
ghost use Rattle.std.specs.Int.{w64, from_le_bytes};
ghost use Rattle.tandem_base.specs.Bytes.{padded};

use std::marker::Model;

/// One to eight bytes, lowest address first.
#[derive(Clone, Copy, Debug, PartialEq, Eq)]
pub struct Bytes8 {
    bytes: [u8; 8],
    len: u8,
}

impl Model for Bytes8 {
    ghost use Rattle.std.specs.Prelude.{◌≡◌, ◌≤◌, ℕ, List, take, drop, length};
    ghost use Rattle.tandem_base.specs.Bytes.{padded};

    ghost Value = { List ℕ };

    ghost view = { λ b. take b.len b.bytes };

    ghost invariant = { λ b. (1 ≤ b.len) × (b.len ≤ 8) × (length (take b.len b.bytes) ≡ b.len)
        × (padded (take b.len b.bytes) ≡ b.bytes) };

    ghost inverse = { λ bytes. record { bytes = padded bytes; len = length bytes } };
}

impl Bytes8 {
    /// These bytes, as they stand. None exactly where there isn't one, or more than eight.
    pub fn new(bytes: &[u8]) -> Option<Bytes8>
        ensures valid { IsSome result ↔ ((1 ≤ length bytes.now) × (length bytes.now ≤ 8)) }
        ensures value { IfSome result (λ made. made ≡ bytes.now) }
    {
        let len = bytes.len();
        if len == 0 || len > 8 {
            return None;
        }
        let mut held = [0; 8];
        held[..len].copy_from_slice(bytes);
        Some(Bytes8 {
            bytes: held,
            len: len as u8,
        })
    }

    /// How many bytes, from 1 to 8.
    pub fn len(&self) -> u8
        ensures value { result ≡ length self.now }
        ensures sized { (1 ≤ result) × (result ≤ 8) }
    {
        self.len
    }

    /// Byte `k`, counted from the lowest address.
    pub fn byte(&self, k: u8) -> u8
        requires { k < length self.now }
        ensures { result ≡ slice_index self.now k }
    {
        self.bytes[k as usize]
    }

    /// The bytes, lowest address first.
    pub fn as_slice(&self) -> &[u8]
        ensures { result.now ≡ self.now }
    {
        &self.bytes[..self.len as usize]
    }

    /// The number that the bytes are, lowest byte first.
    pub fn number(&self) -> u64
        ensures { result ≡ from_le_bytes w64 (padded self.now) }
    {
        u64::from_le_bytes(self.bytes)
    }
}
