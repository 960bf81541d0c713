//! The bytes that an access covers.

ghost use Rattle.std.specs.Prelude.{◌≡◌, ◌+◌, ◌^◌, ◌≤◌, ◌↔◌, ℕ, IsTrue, IsSome, IfSome};

/// The bytes that an access covers: `len` of them, from 1 to 8, from the address `addr` up. An
/// extent never passes the top of the address space.
#[derive(Clone, Copy, Debug, PartialEq, Eq)]
pub struct Extent {
    /// The lowest address.
    pub addr: u64,
    /// How many bytes, from 1 to 8.
    pub len: u8,
    pub ghost sized: { (1 ≤ len) × (len ≤ 8) },
    pub ghost within: { addr + len ≤ 2 ^ 64 },
}

impl Extent {
    ghost use Rattle.std.specs.Prelude.{◌≡◌, ◌+◌, ◌^◌, ◌≤◌, ◌↔◌, ℕ, IsTrue, IsSome, IfSome};
    ghost use Rattle.tandem_base.specs.Extents.{Covers, IsAligned};

    /// The extent of `len` bytes at `addr`. None exactly where `len` isn't 1 to 8, or the bytes
    /// pass 2^64.
    pub fn new(addr: u64, len: u8) -> Option<Extent>
        ensures valid { IsSome result ↔ ((1 ≤ len) × (len ≤ 8) × (addr + len ≤ 2 ^ 64)) }
        ensures value { IfSome result (λ extent. (extent.addr ≡ addr) × (extent.len ≡ len)) }
    {
        if len == 0 || len > 8 || u128::from(addr) + u128::from(len) > 1 << 64 {
            return None;
        }
        Some(Extent { addr, len })
    }

    /// The lowest address.
    pub fn addr(&self) -> u64
        ensures { result ≡ self.now.addr }
    {
        self.addr
    }

    /// How many bytes, from 1 to 8.
    pub fn len(&self) -> u8
        ensures value { result ≡ self.now.len }
        ensures sized { (1 ≤ result) × (result ≤ 8) }
    {
        self.len
    }

    /// Whether the byte at `addr` is one of them.
    pub fn has(&self, addr: u64) -> bool
        ensures { IsTrue result ↔ Covers self.now addr }
    {
        self.addr <= addr && addr - self.addr < u64::from(self.len)
    }

    /// Whether the two share a byte.
    pub fn overlaps(&self, other: &Extent) -> bool
        ensures shared { IsTrue result ↔ ((x : ℕ) × Covers self.now x × Covers other.now x) }
    {
        if self.addr <= other.addr {
            other.addr - self.addr < u64::from(self.len)
        } else {
            self.addr - other.addr < u64::from(other.len)
        }
    }

    /// Whether the address is a multiple of the length, and the length 1, 2, 4 or 8.
    pub fn aligned(&self) -> bool
        ensures { IsTrue result ↔ IsAligned self.now }
    {
        matches!(self.len, 1 | 2 | 4 | 8) && self.addr % u64::from(self.len) == 0
    }
}
