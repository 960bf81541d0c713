//! Who wrote a byte, and what a byte holds.

use tandem_base::Position;

/// A store that wrote a byte: its hart, the tag of its instruction, and where it was performed.
#[derive(Clone, Copy, Debug, PartialEq, Eq)]
pub struct Writer {
    pub hart: u8,
    pub tag: u64,
    pub place: Position,
}

/// A byte of memory: its value, its last writer, and the last writer of another hart than that
/// one. Both are None where no such store has written it; it then has its initial value.
#[derive(Clone, Copy, Debug, PartialEq, Eq)]
pub struct Cell {
    pub value: u8,
    pub last: Option<Writer>,
    pub other: Option<Writer>,
}
