//! One access of an instruction.

use rvwmo_model::{Ann, OpKind};
use tandem_base::{Bytes8, Extent};

/// One access of an instruction, with the bytes that it loads and stores, each over the whole extent.
#[derive(Clone, Copy, Debug)]
pub struct Access {
    /// The number of the hart, from 0.
    pub hart: u8,

    /// The tag of the instruction.
    pub tag: u64,

    /// Whether it loads, stores, or both.
    pub kind: OpKind,

    /// The addresses.
    pub extent: Extent,

    /// The bytes that it loads, 0 where it doesn't.
    pub got: Bytes8,

    /// The bytes that it stores, 0 where it doesn't.
    pub put: Bytes8,

    /// Its annotation as an acquire.
    pub acquire: Ann,

    /// Its annotation as a release.
    pub release: Ann,
}
