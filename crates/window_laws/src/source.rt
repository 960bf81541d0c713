//! Where a loaded byte comes from, as tables tell of it.

use tandem_base::{Origin, Position};

/// Where a loaded byte comes from. The writer is None for the initial value; the place is that of the
/// writer's operation on the byte, None where the source is initial or wasn't performed.
#[derive(Clone, Copy, Debug, PartialEq, Eq)]
pub struct ByteSource {
    /// The instruction that wrote the byte.
    pub writer: Option<Origin>,
    /// When it was written.
    pub place: Option<Position>,
    /// The byte.
    pub byte: u8,
}
