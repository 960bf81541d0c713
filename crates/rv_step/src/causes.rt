//! The causes of traps.

/// A jump to a target that isn't a multiple of 4.
pub const MISALIGNED_FETCH: u8 = 0;

/// No word at the pc.
pub const FETCH_FAULT: u8 = 1;

/// A word that is no instruction, or an instruction whose CSR is absent or may not be written.
pub const ILLEGAL_INSTRUCTION: u8 = 2;

/// EBREAK.
pub const BREAKPOINT: u8 = 3;

/// A load or LR whose address isn't a multiple of its length.
pub const MISALIGNED_LOAD: u8 = 4;

/// A load or LR with a byte outside the image.
pub const LOAD_FAULT: u8 = 5;

/// A store, SC or AMO whose address isn't a multiple of its length.
pub const MISALIGNED_STORE: u8 = 6;

/// A store, SC or AMO with a byte outside the image.
pub const STORE_FAULT: u8 = 7;

/// ECALL.
pub const ENVIRONMENT_CALL: u8 = 11;
