//! Whether a table of bounded size had room.

/// Whether a table took one more entry.
#[derive(Clone, Copy, Debug, PartialEq, Eq)]
pub enum Took {
    /// It did.
    Yes,
    /// It didn't: it holds as many as it has room for, this many, and nothing changed.
    Full(u32),
}
