//! The parts that a Write performs.

use merge_buffer::Part;
use std::alloc::{AllocError, Global};
use std::marker::Model;

/// The number of the line that they are on.
const LINE: u64 = 0x200_0040;

/// Parts on one line.
#[derive(Drop)]
pub struct LineParts {
    parts: Vec<Part>,
}

impl Model for LineParts {
    ghost use Rattle.std.specs.Prelude.{List};
    ghost use Rattle.merge_buffer.specs.declared.waiting.Part.{Part};
    ghost use Rattle.merge_buffer.specs.Parts.{AllOn};

    ghost Value = { List Part };

    ghost view = { λ l. l.parts.items };

    ghost invariant = { λ l. AllOn 33554496 l.parts.items };
}

impl LineParts {
    ghost use Rattle.drain_rules.specs.Answers.{AreOfOneLine};

    /// No parts.
    pub(crate) fn new(alloc: Global) -> LineParts {
        LineParts {
            parts: Vec::new(alloc),
        }
    }

    /// Adds a part behind the others, where it is on their line.
    pub(crate) fn add(&mut self, part: &Part) -> Result<(), AllocError> {
        let size = u64::from(part.piece.bytes.len());
        if part.piece.addr / 64 != LINE || part.piece.addr % 64 + size > 64 {
            return Ok(());
        }
        self.parts.push(*part)?;
        Ok(())
    }

    /// The parts.
    pub(crate) fn as_slice(&self) -> &[Part]
        ensures { AreOfOneLine result.now }
    {
        &self.parts
    }
}
