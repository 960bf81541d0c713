//! What can be wrong with a text.

use thiserror::Error;

/// Why a text has no messages.
#[derive(Debug, Drop, Error)]
pub enum TextFault {
    /// The text is no row of lines of messages.
    #[error("line {line}, column {column}")]
    Form {
        /// The first line that is none, from 1.
        line: u64,
        /// The column, from 1, of its first word that isn't a spelling of the field due there.
        column: u64,
    },
    /// There was no memory for the messages.
    #[error("out of memory")]
    Memory,
}
