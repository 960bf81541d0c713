//! What is kept of a report.

use byte_memory::{Capture, StoreCapture};
use msg_frames::Piece;

/// A Read: its bytes, and what it saw of memory.
#[derive(Clone, Copy, Debug)]
pub struct Read {
    pub piece: Piece,
    pub seen: Capture,
}

/// An early Bypass: its bytes, and what it saw of memory before they were stored.
#[derive(Clone, Copy, Debug)]
pub struct Early {
    pub piece: Piece,
    pub seen: StoreCapture,
}
