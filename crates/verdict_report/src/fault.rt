//! What may be wrong with a message.

use msg_frames::{CsrValue, Form, RdValue};
use tandem_base::{OpName, Origin};

/// What the reference model has for a register that an instruction may write.
#[derive(Clone, Copy, Debug, PartialEq, Eq)]
pub enum RdWant {
    /// No register.
    Absent,
    /// This register with just this value.
    Value(RdValue),
    /// This register with any value but 0: a failed SC.
    Nonzero(u8),
    /// This register with this value or a greater one: a counter.
    AtLeast(RdValue),
}

/// What is wrong with a message, in the order in which the faults are looked for. `want` is the
/// reference model's value and `got` the reported one, None where there is none.
#[derive(Clone, Copy, Debug, PartialEq, Eq)]
pub enum Fault {
    /// The frame breaks the grammar.
    BadFrame {
        form: Form,
    },
    /// The input ended before the frame did, and before End; `have` bytes of the frame came.
    Truncated {
        have: u16,
    },
    /// Message 1 is no Open, or a later message is one.
    BadOpen,
    /// The hart isn't below the number of harts.
    BadHart,
    /// The time is below `last`, that of the message before.
    TimeBack {
        last: u64,
    },
    /// A Read of an instruction that has retired or was passed over: its tag is at most `last`, the
    /// hart's last retired tag.
    LateTag {
        last: u64,
    },
    /// The bytes pass 2^64; or, of an Insert or a Bypass, one is outside the image; or an Insert
    /// crosses a line.
    BadRange,
    /// No retired plain store has this tag and all these bytes, or one of them was reported before.
    UnknownStore,
    /// The byte at `at` isn't the store's.
    StoreData {
        at: u64,
        want: Option<u8>,
        got: Option<u8>,
    },
    /// An aligned store is reported in parts.
    TornStore,
    /// The byte at `at` of a Write isn't what waits for it.
    MergeMismatch {
        at: u64,
        want: Option<u8>,
        got: Option<u8>,
    },
    /// A Poke of a hart that has retired.
    LatePoke,
    /// The tag of a Retire is at most `last`, the hart's last retired tag.
    TagOrder {
        last: u64,
    },
    /// The early Bypass of the tag `bypass` belongs to no instruction that may have one.
    StrayBypass {
        bypass: u64,
    },
    /// The pc differs.
    Pc {
        want: u64,
        got: u64,
    },
    /// The word differs from the image's at the pc, or from 0 where there is none.
    Word {
        want: u32,
        got: u32,
    },
    /// The cause of the trap differs.
    Trap {
        want: Option<u8>,
        got: Option<u8>,
    },
    /// No Read brings the byte at `at` of a load.
    MissingRead {
        at: u64,
    },
    /// The byte at `at` of an aligned load comes from another Read than its first byte.
    TornRead {
        at: u64,
    },
    /// An AMO has no early Bypass.
    MissingBypass,
    /// The next pc differs.
    NextPc {
        want: u64,
        got: u64,
    },
    /// The register or its value differs.
    Rd {
        want: RdWant,
        got: Option<RdValue>,
    },
    /// The lists of written CSRs differ first at `index`, counted from 0.
    Csr {
        index: u8,
        want: Option<CsrValue>,
        got: Option<CsrValue>,
    },
    /// The byte at `at` of an early Bypass isn't the result of its AMO or SC.
    AmoData {
        at: u64,
        want: Option<u8>,
        got: Option<u8>,
    },
    /// A successful SC has no pair, or its bytes are not all among the pair's.
    ScPair,
    /// The byte at `at` of a load isn't that of its source.
    LoadValue {
        at: u64,
        want: Option<u8>,
        got: Option<u8>,
    },
    /// Rule `rule` of preserved program order puts the first operation before the second, and the
    /// global order doesn't.
    Order {
        rule: u8,
        first: OpName,
        second: OpName,
    },
    /// A store of another hart to the byte at `at` comes between an LR and its SC.
    Atomicity {
        at: u64,
        store: Origin,
    },
    /// At End the byte at `at` of a retired store isn't performed.
    Unwritten {
        store: Origin,
        at: u64,
    },
    /// At End an early Bypass has not retired.
    Unretired {
        bypass: Origin,
    },
}

impl Fault {
    ghost use Rattle.std.specs.Prelude.{◌≡◌, ◌≤◌, length};
    ghost use Rattle.verdict_report.specs.Faults.{fault_number, fault_name};

    /// The number by which a line tells the fault.
    pub(crate) fn number(&self) -> u8
        ensures { result ≡ fault_number self.now }
    {
        match self {
            Fault::BadFrame { .. } => 1,
            Fault::Truncated { .. } => 2,
            Fault::BadOpen => 3,
            Fault::BadHart => 4,
            Fault::TimeBack { .. } => 5,
            Fault::LateTag { .. } => 10,
            Fault::BadRange => 11,
            Fault::UnknownStore => 12,
            Fault::StoreData { .. } => 13,
            Fault::TornStore => 14,
            Fault::MergeMismatch { .. } => 15,
            Fault::LatePoke => 16,
            Fault::TagOrder { .. } => 17,
            Fault::StrayBypass { .. } => 18,
            Fault::Pc { .. } => 20,
            Fault::Word { .. } => 21,
            Fault::Trap { .. } => 22,
            Fault::MissingRead { .. } => 30,
            Fault::TornRead { .. } => 31,
            Fault::MissingBypass => 32,
            Fault::NextPc { .. } => 23,
            Fault::Rd { .. } => 24,
            Fault::Csr { .. } => 25,
            Fault::AmoData { .. } => 34,
            Fault::ScPair => 35,
            Fault::LoadValue { .. } => 33,
            Fault::Order { .. } => 36,
            Fault::Atomicity { .. } => 37,
            Fault::Unwritten { .. } => 40,
            Fault::Unretired { .. } => 41,
        }
    }

    /// The name that follows the number in a line, of at most 13 letters.
    pub(crate) fn name(&self) -> &'static [u8]
        ensures name { result.now ≡ fault_name self.now }
        ensures bound { length result.now ≤ 13 }
    {
        match self {
            Fault::BadFrame { .. } => b"BadFrame",
            Fault::Truncated { .. } => b"Truncated",
            Fault::BadOpen => b"BadOpen",
            Fault::BadHart => b"BadHart",
            Fault::TimeBack { .. } => b"TimeBack",
            Fault::LateTag { .. } => b"LateTag",
            Fault::BadRange => b"BadRange",
            Fault::UnknownStore => b"UnknownStore",
            Fault::StoreData { .. } => b"StoreData",
            Fault::TornStore => b"TornStore",
            Fault::MergeMismatch { .. } => b"MergeMismatch",
            Fault::LatePoke => b"LatePoke",
            Fault::TagOrder { .. } => b"TagOrder",
            Fault::StrayBypass { .. } => b"StrayBypass",
            Fault::Pc { .. } => b"Pc",
            Fault::Word { .. } => b"Word",
            Fault::Trap { .. } => b"Trap",
            Fault::MissingRead { .. } => b"MissingRead",
            Fault::TornRead { .. } => b"TornRead",
            Fault::MissingBypass => b"MissingBypass",
            Fault::NextPc { .. } => b"NextPc",
            Fault::Rd { .. } => b"Rd",
            Fault::Csr { .. } => b"Csr",
            Fault::AmoData { .. } => b"AmoData",
            Fault::ScPair => b"ScPair",
            Fault::LoadValue { .. } => b"LoadValue",
            Fault::Order { .. } => b"Order",
            Fault::Atomicity { .. } => b"Atomicity",
            Fault::Unwritten { .. } => b"Unwritten",
            Fault::Unretired { .. } => b"Unretired",
        }
    }
}
