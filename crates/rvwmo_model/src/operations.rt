//! Memory operations.

ghost use Rattle.std.specs.Prelude.{◌≡◌, slice_index};

use tandem_base::{Bytes8, Extent, OpName, Place};

/// Whether an operation loads, stores, or is a load and a store at once, as that of an AMO is.
#[derive(Clone, Copy, Debug, PartialEq, Eq)]
pub enum OpKind {
    /// It loads.
    Load,

    /// It stores.
    Store,

    /// It loads and stores at once.
    Both,
}

/// The annotation of an operation as an acquire or as a release (section 14.1): none, RCpc or RCsc.
#[derive(Clone, Copy, Debug, PartialEq, Eq)]
pub enum Ann {
    /// No annotation.
    None,

    /// RCpc.
    Rcpc,

    /// RCsc.
    Rcsc,
}

/// A memory operation: some of the bytes of one access of one instruction.
#[derive(Clone, Copy, Debug, PartialEq, Eq)]
pub struct Op {
    /// Hart and tag of its instruction, and the offset of its lowest byte.
    pub name: OpName,

    /// Whether it loads, stores, or both.
    pub kind: OpKind,

    /// The access.
    pub extent: Extent,

    /// Bit k is set where byte k of the extent is one of the operation's.
    pub mask: u8,

    /// The bytes that it loaded, over the whole extent: 0 outside the mask, and where it doesn't load.
    pub got: Bytes8,

    /// The bytes that it stored, over the whole extent: 0 outside the mask, and where it doesn't store.
    pub put: Bytes8,

    /// Its annotation as an acquire.
    pub acquire: Ann,

    /// Its annotation as a release.
    pub release: Ann,

    /// When it was performed; None for the bytes of a store that were not performed yet.
    pub place: Option<Place>,
}

/// Byte `k` of a list, 0 past its end.
pub(crate) fn byte_of(bytes: &Bytes8, k: u64) -> u8
    ensures { result ≡ slice_index bytes.now k }
{
    if k < u64::from(bytes.len()) {
        bytes.byte(k as u8)
    } else {
        0
    }
}

impl OpKind {
    ghost use Rattle.std.specs.Prelude.{◌≡◌};
    ghost use Rattle.rvwmo_model.specs.Order;

    /// Whether an operation of this kind loads.
    pub(crate) fn loads(self) -> bool
        ensures { result ≡ Order.kind_loads self }
    {
        match self {
            OpKind::Load => true,
            OpKind::Store => false,
            OpKind::Both => true,
        }
    }

    /// Whether an operation of this kind stores.
    pub(crate) fn stores(self) -> bool
        ensures { result ≡ Order.kind_stores self }
    {
        match self {
            OpKind::Load => false,
            OpKind::Store => true,
            OpKind::Both => true,
        }
    }
}

impl Op {
    ghost use Rattle.std.specs.Prelude.{◌≡◌};
    ghost use Rattle.rvwmo_model.specs.Order;
    ghost use Rattle.rvwmo_model.specs.ProgramOrder.{is_older};

    /// Whether the byte at `x` is one of the operation's.
    pub(crate) fn has_byte(&self, x: u64) -> bool
        ensures { result ≡ Order.has_byte x self.now }
    {
        self.extent.has(x) && (self.mask >> (x - self.extent.addr)) & 1 == 1
    }

    /// Whether the operation loads the byte at `x`.
    pub(crate) fn reads(&self, x: u64) -> bool
        ensures { result ≡ Order.reads x self.now }
    {
        self.kind.loads() && self.has_byte(x)
    }

    /// Whether the operation stores to the byte at `x`.
    pub(crate) fn writes(&self, x: u64) -> bool
        ensures { result ≡ Order.writes x self.now }
    {
        self.kind.stores() && self.has_byte(x)
    }

    /// Whether this operation comes before another in the global order.
    #[tactic(auto, unfolding(crate::specs::Order::stands_before))]
    pub(crate) fn precedes(&self, other: &Op) -> bool
        ensures { result ≡ Order.precedes self.now other.now }
    {
        match (self.place, other.place) {
            (Some(p), Some(q)) => p.is_before(&q),
            (Some(_p), None) => true,
            (None, Some(_q)) => false,
            (None, None) => self.name.hart < other.name.hart
                || self.name.hart == other.name.hart && self.name.tag < other.name.tag,
        }
    }

    /// Whether the instruction of this operation comes before that of another in program order.
    pub(crate) fn is_older(&self, other: &Op) -> bool
        ensures { result ≡ is_older self.now other.now }
    {
        self.name.hart == other.name.hart && self.name.tag < other.name.tag
    }

    /// What it loaded from the byte at `x`, which it loads.
    pub(crate) fn got_at(&self, x: u64) -> u8
        ensures { result ≡ Order.got_at self.now x }
    {
        byte_of(&self.got, x.saturating_sub(self.extent.addr))
    }

    /// What it stored to the byte at `x`, which it stores to.
    pub(crate) fn put_at(&self, x: u64) -> u8
        ensures { result ≡ Order.put_at self.now x }
    {
        byte_of(&self.put, x.saturating_sub(self.extent.addr))
    }
}
