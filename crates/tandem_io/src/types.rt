//! What calls of the outside speak of.

/// The answer of a call of the outside that could not be done. The object's count of faults says
/// why: it rose in that call, or it stands at its last value.
#[derive(Clone, Copy, Debug, PartialEq, Eq)]
pub struct Failed;

/// One of the two inputs of a run.
#[derive(Clone, Copy, Debug, PartialEq, Eq)]
pub enum Slot {
    /// The memory image of the program under test.
    Image,
    /// The stream of reports.
    Stream,
}

/// A single byte that passed between a source and its user.
#[derive(Clone, Copy, Debug, PartialEq, Eq)]
pub struct Logged {
    /// True where the byte was given to the source, false where it was taken from it.
    pub given: bool,
    /// The byte itself.
    pub byte: u8,
}
