//! Messages, by their kinds.

ghost use Rattle.std.specs.Prelude.{◌≡◌, [], None};

use super::csrs::CsrList;
use tandem_base::Bytes8;

/// What every message has: the hart that it is about, when it happened, and the tag of the
/// instruction that it belongs to.
#[derive(Clone, Copy, Debug, PartialEq, Eq)]
pub struct Head {
    /// The number of the hart, from 0.
    pub hart: u8,
    /// When it happened. No message has a time before that of the one before it.
    pub time: u64,
    /// The tag of the instruction.
    pub tag: u64,
}

/// The settings of a stream.
#[derive(Clone, Copy, Debug, PartialEq, Eq)]
pub struct OpenInfo {
    /// The version of the format: 1.
    pub version: u8,
    /// How many harts there are, from 1 to 16.
    pub harts: u8,
    /// Bit 0: mtval of an illegal instruction is the word, else 0. Bit 1: misaligned loads and
    /// stores trap. The others are reserved.
    pub flags: u8,
    /// Reserved in version 1.
    pub granule: u8,
    /// Reserved in version 1.
    pub skew: u32,
}

/// What a Poke sets: the pc, the register x1 to x31 of this number, or the CSR of this number.
#[derive(Clone, Copy, Debug, PartialEq, Eq)]
pub enum Target {
    /// The pc.
    Pc,
    /// The register x1 to x31 of this number.
    X(u8),
    /// The CSR of this number.
    Csr(u16),
}

/// A value set before a hart's first Retire.
#[derive(Clone, Copy, Debug, PartialEq, Eq)]
pub struct Poke {
    /// What is set.
    pub target: Target,
    /// The value that it is set to.
    pub value: u64,
}

/// Bytes of memory, the lowest at `addr`.
#[derive(Clone, Copy, Debug, PartialEq, Eq)]
pub struct Piece {
    /// The lowest address.
    pub addr: u64,
    /// One to eight bytes, the one at the lowest address first.
    pub bytes: Bytes8,
}

/// A 64-byte line of a merge buffer that became visible to all. Bit k of the mask is the byte at
/// `line + k`.
#[derive(Clone, Copy, Debug, PartialEq, Eq)]
pub struct LineWrite {
    /// The lowest address, a multiple of 64.
    pub line: u64,
    /// Which bytes became visible.
    pub mask: u64,
    /// The bytes of the line, 0 outside the mask.
    pub bytes: [u8; 64],
}

/// The value written to a register x1 to x31.
#[derive(Clone, Copy, Debug, PartialEq, Eq)]
pub struct RdValue {
    /// The number of the register, from 1 to 31.
    pub number: u8,
    /// The value that was written.
    pub value: u64,
}

/// The end of an instruction, as the design reports it: the cause in `trap` where it trapped, the
/// register that it wrote, and the CSRs.
#[derive(Debug, Drop)]
pub struct Retire {
    /// The address of the instruction.
    pub pc: u64,
    /// The instruction word.
    pub word: u32,
    /// The address of the next instruction of the hart.
    pub next: u64,
    /// The cause, where it trapped.
    pub trap: Option<u8>,
    /// The register that it wrote.
    pub rd: Option<RdValue>,
    /// The CSRs that it wrote, in their order.
    pub csrs: CsrList,
}

/// What a message says, by its kind.
#[derive(Debug, Drop)]
pub enum Body {
    /// The first message of a stream.
    Open(OpenInfo),
    /// A value set before a hart's first Retire.
    Poke(Poke),
    /// A part of a load was performed.
    Read(Piece),
    /// A store went into the merge buffer.
    Insert(Piece),
    /// A line of the merge buffer became visible to all.
    Write(LineWrite),
    /// A store became visible to all by itself.
    Bypass(Piece),
    /// An instruction retired.
    Retire(Retire),
    /// The instruction of the tag does not retire.
    Squash,
    /// The last message of a stream.
    End,
}

/// One report.
#[derive(Debug, Drop)]
pub struct Message {
    /// What every message has.
    pub head: Head,
    /// What this one says.
    pub body: Body,
}

impl Message {
    /// A message to be overwritten: a Squash of hart 0 at time 0 with tag 0.
    pub(crate) fn blank() -> Message
        ensures head { result.head ≡ record { hart = 0; time = 0; tag = 0 } }
        ensures body { result.body ≡ Body.Squash }
    {
        let head = Head {
            hart: 0,
            time: 0,
            tag: 0,
        };
        Message {
            head,
            body: Body::Squash,
        }
    }

    /// The same message, without taking memory.
    pub fn copy(&self) -> Message
        ensures { result ≡ self.now }
    {
        let body = match &self.body {
            Body::Open(info) => Body::Open(*info),
            Body::Poke(poke) => Body::Poke(*poke),
            Body::Read(piece) => Body::Read(*piece),
            Body::Insert(piece) => Body::Insert(*piece),
            Body::Write(write) => Body::Write(*write),
            Body::Bypass(piece) => Body::Bypass(*piece),
            Body::Retire(retire) => Body::Retire(retire.copy()),
            Body::Squash => Body::Squash,
            Body::End => Body::End,
        };
        Message {
            head: self.head,
            body,
        }
    }
}

impl Retire {
    /// A Retire to be overwritten: all numbers are 0, and nothing was written.
    pub(crate) fn blank() -> Retire
        ensures numbers { (result.pc ≡ 0) × (result.word ≡ 0) × (result.next ≡ 0) }
        ensures nothing { (result.trap ≡ None) × (result.rd ≡ None) × (result.csrs ≡ []) }
    {
        Retire {
            pc: 0,
            word: 0,
            next: 0,
            trap: None,
            rd: None,
            csrs: CsrList::new(),
        }
    }

    /// The same Retire, without taking memory.
    fn copy(&self) -> Retire
        ensures { result ≡ self.now }
    {
        Retire {
            pc: self.pc,
            word: self.word,
            next: self.next,
            trap: self.trap,
            rd: self.rd,
            csrs: self.csrs.copy(),
        }
    }
}

/// How a frame breaks the grammar.
#[derive(Clone, Copy, Debug, PartialEq, Eq)]
pub enum Form {
    /// The length is none, or not that of the kind.
    Length,
    /// The kind is none.
    Kind,
    /// A reserved byte or bit is not 0.
    Reserved,
    /// A field has a value that it can't have.
    Field,
}

/// The first break of the grammar in a frame, with the offset in the frame of the byte named.
#[derive(Clone, Copy, Debug, PartialEq, Eq)]
pub struct FrameFault {
    /// What is broken.
    pub form: Form,
    /// The offset of the byte in the frame, from 0.
    pub offset: u16,
}
