//! What a message says.

ghost use Rattle.std.specs.Prelude.{◌≡◌, ◌<◌, ◌≤◌, ◌^◌, length, None};
ghost use Rattle.trace_gen.specs.Making.{ends, opens, pokes};
ghost use Rattle.trace_gen.specs.Rounds.{says_bypass, says_insert, says_read, says_retire, tag_of, rd_with, says_write};

use super::image::{pc_of, word_of};
use msg_frames::{Body, CsrList, LineWrite, OpenInfo, Piece, Poke, RdValue, Retire, Target};
use tandem_base::Bytes8;

/// What a message says, and of which tag.
#[derive(Debug, Drop)]
pub struct Saying {
    /// The tag of the instruction, 0 where the message is of none.
    pub tag: u64,
    /// What it says.
    pub body: Body,
}

/// The stream is opened: version 1, without flags.
pub fn opens(harts: u8) -> Saying
    ensures { result ≡ opens harts }
{
    let info = OpenInfo {
        version: 1,
        harts,
        flags: 0,
        granule: 0,
        skew: 0,
    };
    Saying {
        tag: 0,
        body: Body::Open(info),
    }
}

/// A register is set before the first Retire.
pub fn pokes(number: u8, value: u64) -> Saying
    ensures { result ≡ pokes number value }
{
    let target = Target::X(number);
    Saying {
        tag: 0,
        body: Body::Poke(Poke { target, value }),
    }
}

/// The stream is over.
pub fn ends() -> Saying
    ensures { result ≡ ends }
{
    Saying {
        tag: 0,
        body: Body::End,
    }
}

/// The tag of instruction `k` of the program in a round, both from 0.
fn tag_of(round: u32, k: u8) -> u64
    ensures { result ≡ tag_of round k }
{
    7 * u64::from(round) + u64::from(k) + 1
}

/// Instruction `k` of the program retires.
pub fn retires(round: u32, k: u8, rd: Option<RdValue>) -> Saying
    requires { k < 7 }
    ensures { result ≡ says_retire round k rd }
{
    let retire = Retire {
        pc: pc_of(k),
        word: word_of(k),
        next: pc_of((k + 1) % 7),
        trap: None,
        rd,
        csrs: CsrList::new(),
    };
    Saying {
        tag: tag_of(round, k),
        body: Body::Retire(retire),
    }
}

/// A register is written.
pub fn writes(number: u8, value: u64) -> Option<RdValue>
    ensures { result ≡ rd_with number value }
{
    Some(RdValue { number, value })
}

/// Instruction `k` of the program reads bytes.
pub fn reads(round: u32, k: u8, addr: u64, bytes: Bytes8) -> Saying
    ensures { result ≡ says_read round k addr bytes }
{
    Saying {
        tag: tag_of(round, k),
        body: Body::Read(Piece { addr, bytes }),
    }
}

/// It puts bytes into the merge buffer.
pub fn inserts(round: u32, k: u8, addr: u64, bytes: Bytes8) -> Saying
    ensures { result ≡ says_insert round k addr bytes }
{
    Saying {
        tag: tag_of(round, k),
        body: Body::Insert(Piece { addr, bytes }),
    }
}

/// It makes bytes visible to all.
pub fn bypasses(round: u32, k: u8, addr: u64, bytes: Bytes8) -> Saying
    ensures { result ≡ says_bypass round k addr bytes }
{
    Saying {
        tag: tag_of(round, k),
        body: Body::Bypass(Piece { addr, bytes }),
    }
}

/// The bytes of a number become visible at the front of a line.
pub fn writes_front(line: u64, value: u64) -> Saying
    ensures { result ≡ says_write line value }
{
    let mut bytes = [0; 64];
    bytes[..8].copy_from_slice(&value.to_le_bytes());
    let write = LineWrite {
        line,
        mask: 0xff,
        bytes,
    };
    Saying {
        tag: 0,
        body: Body::Write(write),
    }
}
