//! What reads and writes of registers answer.

/// What a read of a register gives.
#[derive(Clone, Copy, Debug, PartialEq, Eq)]
pub enum CsrRead {
    /// The register's value.
    Value(u64),
    /// The register is cycle, whose value is known outside alone.
    Cycle,
    /// The register is time, whose value is known outside alone.
    Time,
    /// The register is instret: the number of instructions that the hart retired without a trap.
    Instret,
    /// No register has this number.
    Absent,
}

/// What became of a write of a register.
#[derive(Clone, Copy, Debug, PartialEq, Eq)]
pub enum CsrWrite {
    /// The register keeps this of the value.
    Done(u64),
    /// The register can't be written: bits 11:10 of its number are 11.
    ReadOnly,
    /// No register has this number.
    Absent,
}
