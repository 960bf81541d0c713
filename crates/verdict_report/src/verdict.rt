//! The end of a judgement.

use super::fault::Fault;
use msg_frames::Head;

/// A count that a run keeps within bounds.
#[derive(Clone, Copy, Debug, PartialEq, Eq)]
pub enum Limit {
    /// Live Reads and unretired early Bypasses of one hart.
    Reads,
    /// Retired stores of one hart with a byte that isn't performed.
    Stores,
    /// Performed operations of one hart that may still matter.
    Kept,
    /// The number of the message.
    Messages,
}

/// The first offending message and what is wrong with it.
#[derive(Clone, Copy, Debug, PartialEq, Eq)]
pub struct Report {
    /// The number of the message, counted from 1.
    pub message: u64,
    /// The offset in the stream of the frame's first byte; for a frame that breaks the grammar, of
    /// the byte named.
    pub offset: u64,
    /// The message's head: None exactly where no message could be read, so for `BadFrame` and
    /// `Truncated`.
    pub head: Option<Head>,
    pub fault: Fault,
}

/// The end of a judgement.
#[derive(Clone, Copy, Debug, PartialEq, Eq)]
pub enum Verdict {
    /// No message offends. `retired` counts all Retires, those that trapped included, and
    /// `operations` the operations of memory.
    Accept {
        messages: u64,
        retired: u64,
        operations: u64,
    },
    /// A message offends.
    Reject(Report),
    /// At this message a count first passed its limit. `hart` is 0 where the limit is that of
    /// messages, which is none of one hart.
    Undecided {
        message: u64,
        limit: Limit,
        hart: u8,
        count: u64,
    },
}
