//! Operations, as they are kept.

use rvwmo_model::OpKind;
use tandem_base::{Bytes8, Extent, Mark, OpName, Origin, Position};

/// A performed operation, with what the rules of preserved program order ask of it later.
#[derive(Clone, Copy, Debug, PartialEq, Eq)]
pub struct KeptOp {
    /// Hart and tag of its instruction, and the offset of its lowest byte.
    pub name: OpName,
    /// When it was performed.
    pub place: Position,
    /// Whether it loads, stores, or both.
    pub kind: OpKind,
    /// The access.
    pub extent: Extent,
    /// Bit k is set where byte k of the extent is one of the operation's.
    pub mask: u8,
    /// The bytes that it stored, over the whole extent.
    pub put: Bytes8,
    /// Whether it is of an SC or an AMO.
    pub atomic: bool,
    /// The sources of the bytes of the extent; None for the initial value, and where it doesn't load.
    pub sources: [Option<Origin>; 8],
    /// Of a store, the latest operation on which it has an address or data dependency.
    pub lead: Option<Mark>,
}

impl KeptOp {
    ghost use Rattle.std.specs.Prelude.{◌≡◌};
    ghost use Rattle.kept_ops.specs.Operations.{holds_byte, loads_at, stores_at, source_at, came_after};

    /// Whether the byte at `x` is one of the operation's.
    pub fn has(&self, x: u64) -> bool
        ensures { result ≡ holds_byte x self.now }
    {
        self.extent.has(x) && (self.mask >> (x - self.extent.addr)) % 2 == 1
    }

    /// Whether the operation loads the byte at `x`.
    pub fn loads(&self, x: u64) -> bool
        ensures { result ≡ loads_at x self.now }
    {
        self.kind != OpKind::Store && self.has(x)
    }

    /// Whether the operation stores to the byte at `x`.
    pub fn stores(&self, x: u64) -> bool
        ensures { result ≡ stores_at x self.now }
    {
        self.kind != OpKind::Load && self.has(x)
    }

    /// The source of the byte at `x`, which it loads: None for the initial value.
    pub fn source(&self, x: u64) -> Option<Origin>
        ensures { result ≡ source_at x self.now }
    {
        let k = x.saturating_sub(self.extent.addr);
        if k < 8 {
            self.sources[k as usize]
        } else {
            None
        }
    }

    /// Whether the operation was performed after a place.
    pub fn is_after(&self, place: Position) -> bool
        ensures { result ≡ came_after place self.now }
    {
        place.is_before(&self.place)
    }
}
