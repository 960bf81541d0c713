//! How far the counts of a run may go.

/// Up to which counts a run is judged. Each is from 1 to its ceiling.
#[derive(Clone, Copy, Debug, PartialEq, Eq)]
pub struct Limits {
    /// Live Reads and unretired early Bypasses of one hart.
    pub reads: u32,
    /// Retired stores of one hart with a byte that isn't performed.
    pub stores: u32,
    /// Performed operations of one hart that may still matter.
    pub kept: u32,
    /// The messages of the stream.
    pub messages: u64,
}

impl Limits {
    /// The greatest limits that can be asked for.
    pub const CEILINGS: Limits = Limits {
        reads: 4096,
        stores: 4096,
        kept: 16384,
        messages: 4_000_000_000,
    };
}
