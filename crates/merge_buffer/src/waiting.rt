//! What waits.

use msg_frames::Piece;

/// An Insert that waits: the tag of its store, its bytes, and the number of its message.
#[derive(Clone, Copy, Debug, PartialEq, Eq)]
pub struct Part {
    pub tag: u64,
    pub piece: Piece,
    pub number: u32,
}

/// An Insert with the one before it on its line.
#[derive(Clone, Copy, Debug)]
pub struct Waiting {
    pub part: Part,
    pub before: Option<usize>,
}
