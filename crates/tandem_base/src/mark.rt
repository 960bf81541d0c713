//! An operation with where it was performed.

use super::names::{OpName, Position};

/// A performed operation, as tables remember it: its name, and where it stands among the places of its
/// stream.
#[derive(Clone, Copy, Debug, PartialEq, Eq)]
pub struct Mark {
    /// The name of the operation.
    pub name: OpName,
    /// Where it was performed.
    pub place: Position,
}
