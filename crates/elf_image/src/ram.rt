//! RAM as it is asked for.

/// A range of RAM: `size` bytes from the address `base` up, which are 0 before a run begins.
#[derive(Clone, Copy, Debug, PartialEq, Eq)]
pub struct Ram {
    /// The lowest address.
    pub base: u64,
    /// How many bytes.
    pub size: u64,
}
