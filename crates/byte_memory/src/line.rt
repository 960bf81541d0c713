//! The bytes of a 64-byte line, with their writers.

ghost use Rattle.std.specs.Prelude.{◌≡◌, ◌≢◌, ◌+◌, ◌*◌, ◌/◌, ◌%◌, ◌^◌, ◌<◌, ◌≤◌, ℕ, length};
ghost use Rattle.std.specs.Prelude.{option_copied};
ghost use Rattle.elf_image.specs.Images.{loaded_of, initial_byte};
ghost use Rattle.byte_memory.specs.Memory.{written_in, overwritten, after_part, foreign_writer, other_writer};
ghost use Rattle.byte_memory.specs.Memory.{cell_over, written_on};

use crate::writer::{Cell, Writer};
use elf_image::Image;
use msg_frames::Piece;

/// A line of memory. A byte without a last writer has never been stored to, and its value is 0.
#[derive(Clone, Copy, Debug)]
pub struct Line {
    pub values: [u8; 64],
    pub last: [Option<Writer>; 64],
    pub other: [Option<Writer>; 64],
}

impl Line {
    /// A line that nothing was stored to.
    pub fn new() -> Line
        ensures { (k : ℕ) → written_in result k ≡ None }
    {
        Line {
            values: [0; 64],
            last: [None; 64],
            other: [None; 64],
        }
    }

    /// Stores one byte.
    pub fn put(&mut self, k: usize, value: u8, writer: &Writer)
        requires { k < 64 }
        ensures there { written_in self.new k ≡ Some (overwritten (written_in self.old k) writer.now value) }
        ensures others { (j : ℕ) → j ≢ k → written_in self.new j ≡ written_in self.old j }
    {
        match self.last[k] {
            None => self.other[k] = None,
            Some(last) => {
                if last.hart != writer.hart {
                    self.other[k] = Some(last);
                }
            }
        }
        self.last[k] = Some(*writer);
        self.values[k] = value;
    }

    /// Stores the bytes of a piece from byte `first` up to byte `past`, all of them in this line.
    pub fn store(&mut self, line: u64, piece: &Piece, first: u8, past: u8, writer: &Writer)
        requires some { first ≤ past }
        requires there { past ≤ length piece.now.bytes }
        requires from { line * 64 ≤ piece.now.addr + first }
        requires to { piece.now.addr + past ≤ (line + 1) * 64 }
        requires within { piece.now.addr + length piece.now.bytes ≤ 2 ^ 64 }
        ensures { (x : ℕ) → x / 64 ≡ line → written_in self.new (x % 64)
            ≡ after_part piece.now first past writer.now x (written_in self.old (x % 64)) }
    {
        for k in first..past {
            let at = (piece.addr + u64::from(k)) % 64;
            self.put(at as usize, piece.bytes.byte(k), writer);
        }
    }

    /// The last writer of a byte that is of another hart than this one.
    pub fn foreign(&self, k: usize, hart: u8) -> Option<&Writer>
        requires { k < 64 }
        ensures { option_copied result ≡ foreign_writer hart (written_in self.now k) }
    {
        let last = self.last[k].as_ref()?;
        if last.hart == hart {
            self.other[k].as_ref()
        } else {
            Some(last)
        }
    }

    /// The last writer of a byte that is of another hart than its last writer's.
    pub fn other(&self, k: usize) -> Option<Writer>
        requires { k < 64 }
        ensures { result ≡ other_writer (written_in self.now k) }
    {
        self.last[k]?;
        self.other[k]
    }
}

/// The byte at an address of a line that may be there: as the last store to it left it, or with its initial
/// value.
pub fn cell_in(line: Option<&Line>, image: &Image, addr: u64) -> Cell
    ensures { result ≡ cell_over (initial_byte (loaded_of image.now) addr)
        (written_on (option_copied line.entry) addr) }
{
    let k = (addr % 64) as usize;
    if let Some(line) = line
        && line.last[k].is_some()
    {
        return Cell {
            value: line.values[k],
            last: line.last[k],
            other: line.other[k],
        };
    }
    Cell {
        value: image.byte(addr).unwrap_or(0),
        last: None,
        other: None,
    }
}
