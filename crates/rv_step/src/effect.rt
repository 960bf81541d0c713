//! What comes from outside of a hart, and what an instruction reports.

use msg_frames::{CsrList, Piece, RdValue};
use tandem_base::Bytes8;

/// What a hart can't know by itself.
#[derive(Clone, Copy, Debug, PartialEq, Eq)]
pub struct Outside {
    /// The bytes that a load, LR or AMO read.
    pub load: Option<Bytes8>,
    /// Whether an SC stored.
    pub stored: bool,
    /// The value of cycle or time, or what a failed SC gives.
    pub reported: u64,
}

impl Outside {
    ghost use Rattle.std.specs.Prelude.{◌≡◌};
    ghost use Rattle.rv_step.specs.Steps.{number_loaded};

    /// The number in the loaded bytes, lowest byte first; 0 where there are none.
    pub(crate) fn number(&self) -> u64
        ensures { result ≡ number_loaded self.now }
    {
        match self.load {
            Some(bytes) => bytes.number(),
            None => 0,
        }
    }
}

/// What an instruction did.
#[derive(Debug, Drop)]
pub struct Effect {
    /// The next pc.
    pub next: u64,
    /// The register that it wrote, if it isn't x0.
    pub rd: Option<RdValue>,
    /// The CSRs that it wrote, each with the value kept.
    pub csrs: CsrList,
    /// The bytes that it stores.
    pub store: Option<Piece>,
    /// The cause of its trap.
    pub trap: Option<u8>,
}

impl Effect {
    ghost use Rattle.std.specs.Prelude.{◌≡◌, None};
    ghost use Rattle.rv_step.specs.Steps.{reports};

    /// A place for an effect: that of an instruction that goes on at 0 and does nothing else.
    pub fn new() -> Effect
        ensures { result ≡ reports 0 None }
    {
        Effect {
            next: 0,
            rd: None,
            csrs: CsrList::new(),
            store: None,
            trap: None,
        }
    }
}
