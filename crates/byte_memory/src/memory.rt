//! The bytes of memory that stores wrote.

ghost use Rattle.std.specs.Prelude.{◌≡◌, ℕ, Some, length, slice_get};
ghost use Rattle.key_tree.specs.Entries.{number_at};

use crate::initial::fill_initial;
use crate::line::{Line, cell_in};
use crate::writer::{Cell, Writer};
use elf_image::Image;
use key_tree::KeyTree;
use msg_frames::Piece;
use std::alloc::{AllocError, Global};

/// Memory as stores left it, over the initial bytes of an image. Only lines that are ready hold
/// anything.
#[derive(Drop)]
pub struct Memory {
    index: KeyTree,
    numbers: Vec<u64>,
    lines: Vec<Line>,
    recent: usize,
    ghost whole: { length numbers.items ≡ length lines.items },
    ghost there: { (i n : ℕ) → slice_get numbers.items i ≡ Some n → number_at index n ≡ Some i },
    ghost back: { (i n : ℕ) → number_at index n ≡ Some i → slice_get numbers.items i ≡ Some n },
}

impl Memory {
    ghost use Rattle.std.specs.Prelude.{◌≡◌, ◌≢◌, ◌+◌, ◌-◌, ◌*◌, ◌/◌, ◌%◌, ◌^◌, ◌<◌, ◌≤◌, ◌==◌, ◌||◌, ℕ, length};
    ghost use Rattle.std.specs.Prelude.{slice_index, slice_index_or, option_map, true, false, OnOk, OnErr, IfOk};
    ghost use Rattle.std.specs.Prelude.{IfSome, None, is_some, Some, option_copied};
    ghost use Rattle.elf_image.specs.Images.{loaded_of};
    ghost use Rattle.key_tree.specs.Entries.{number_at};
    ghost use Rattle.tandem_base.specs.Extents.{is_among};
    ghost use Rattle.byte_memory.specs.Memory.{is_ready, line_at, held_line, written_at};
    ghost use Rattle.byte_memory.specs.Memory.{cell_at, after_part, after_store, other_writer};

    /// Memory that nothing was stored to, with no line ready.
    pub fn new(alloc: Global) -> Memory
        ensures unready { (x : ℕ) → is_ready result x ≡ false }
        ensures unwritten { (x : ℕ) → written_at result x ≡ None }
    {
        Memory {
            index: KeyTree::empty(alloc),
            numbers: Vec::new(alloc),
            lines: Vec::new(alloc),
            recent: 0,
        }
    }

    /// Makes the line of an address ready to be stored to. A line stays ready.
    pub fn ready(&mut self, addr: u64) -> Result<(), AllocError>
        ensures ok { OnOk result ((x : ℕ) → is_ready self.new x ≡ (is_ready self.old x || (x / 64 == addr / 64))) }
        ensures err { OnErr result ((x : ℕ) → is_ready self.new x ≡ is_ready self.old x) }
        ensures written { (x : ℕ) → written_at self.new x ≡ written_at self.old x }
    {
        let line = addr / 64;
        match self.find(line) {
            Some(at) => {
                self.recent = at;
                Ok(())
            }
            None => self.add(line),
        }
    }

    /// Adds a line that isn't ready.
    fn add(&mut self, line: u64) -> Result<(), AllocError>
        requires { number_at self.old.index line ≡ None }
        ensures ok { OnOk result ((x : ℕ) → is_ready self.new x ≡ (is_ready self.old x || (x / 64 == line))) }
        ensures err { OnErr result ((x : ℕ) → is_ready self.new x ≡ is_ready self.old x) }
        ensures written { (x : ℕ) → written_at self.new x ≡ written_at self.old x }
    {
        self.index.reserve()?;
        self.numbers.reserve(1)?;
        self.lines.reserve(1)?;
        let at = self.lines.len();
        self.numbers.push_reserved(line);
        self.lines.push_reserved(Line::new());
        self.index.put(line, at);
        self.recent = at;
        Ok(())
    }

    /// Looks the line of an address up, so that the next calls about this line find it at once.
    pub fn look(&mut self, addr: u64)
        ensures ready { (x : ℕ) → is_ready self.new x ≡ is_ready self.old x }
        ensures written { (x : ℕ) → written_at self.new x ≡ written_at self.old x }
    {
        match self.find(addr / 64) {
            Some(at) => self.recent = at,
            None => {}
        }
    }

    /// Stores the bytes of a piece, all of them in lines that are ready.
    pub fn store(&mut self, piece: &Piece, writer: &Writer)
        // A Bypass or Insert that passes the top of the address space is refused as a bad range.
        requires within { piece.now.addr + length piece.now.bytes ≤ 2 ^ 64 }
        // Whoever takes a Bypass or a Write makes its lines ready first, where memory may still be refused.
        requires ready { (x : ℕ) → is_among piece.now.addr (length piece.now.bytes) x ≡ true → is_ready self.old x
            ≡ true }
        ensures written { (x : ℕ) → written_at self.new x ≡ after_store piece.now writer.now x (written_at self.old x) }
        ensures ready { (x : ℕ) → is_ready self.new x ≡ is_ready self.old x }
    {
        let line = piece.addr / 64;
        let len = piece.bytes.len();
        let room = (64 - piece.addr % 64) as u8;
        if len <= room {
            self.store_part(line, piece, 0, len, writer);
        } else {
            self.store_part(line, piece, 0, room, writer);
            self.store_part(line + 1, piece, room, len, writer);
        }
    }

    /// Stores the bytes of a piece from byte `first` up to byte `past`, all of them in one line.
    fn store_part(&mut self, line: u64, piece: &Piece, first: u8, past: u8, writer: &Writer)
        requires ready { is_some (held_line self.old line) ≡ true }
        requires some { first ≤ past }
        requires there { past ≤ length piece.now.bytes }
        requires from { line * 64 ≤ piece.now.addr + first }
        requires to { piece.now.addr + past ≤ (line + 1) * 64 }
        requires within { piece.now.addr + length piece.now.bytes ≤ 2 ^ 64 }
        ensures there { (x : ℕ) → x / 64 ≡ line → written_at self.new x
            ≡ after_part piece.now first past writer.now x (written_at self.old x) }
        ensures others { (x : ℕ) → x / 64 ≢ line → line_at self.new x ≡ line_at self.old x }
        ensures ready { (x : ℕ) → is_ready self.new x ≡ is_ready self.old x }
    {
        let Some(at) = self.find(line) else {
            unreachable!()
        };
        self.recent = at;
        self.lines[at].store(line, piece, first, past, writer);
    }

    /// The byte at an address: as the last store to it left it, or with its initial value, which is
    /// 0 where the image has no byte.
    pub fn at(&self, image: &Image, addr: u64) -> Cell
        ensures { result ≡ cell_at self.now (loaded_of image.now) addr }
    {
        cell_in(self.line(addr), image, addr)
    }

    /// The eight bytes of an aligned doubleword, with their last writers.
    pub(crate) fn see(
        &self,
        image: &Image,
        base: u64,
        values: &mut [u8; 8],
        last: &mut [Option<Writer>; 8],
    )
        requires { base % 8 ≡ 0 }
        ensures value { (k : ℕ) → k < 8 → slice_index values.new k
            ≡ (cell_at self.now (loaded_of image.now) (base + k)).value }
        ensures last { (k : ℕ) → k < 8 → slice_index_or last.new k None
            ≡ (cell_at self.now (loaded_of image.now) (base + k)).last }
    {
        self.see_written(base, values, last);
        fill_initial(image, base, values, last);
    }

    /// The bytes of an aligned doubleword that were stored to, with their last writers.
    fn see_written(&self, base: u64, values: &mut [u8; 8], last: &mut [Option<Writer>; 8])
        requires { base % 8 ≡ 0 }
        ensures value { (k : ℕ) → k < 8 → IfSome (written_at self.now (base + k)) (λ was. slice_index values.new k
            ≡ was.value) }
        ensures last { (k : ℕ) → k < 8 → slice_index_or last.new k None ≡ option_map
            (λ was. was.last) (written_at self.now (base + k)) }
    {
        let offset = (base % 64) as usize;
        match self.line(base) {
            Some(line) => {
                values.copy_from_slice(&line.values[offset..offset + 8]);
                last.copy_from_slice(&line.last[offset..offset + 8]);
            }
            None => *last = [None; 8],
        }
    }

    /// The last writer of a byte that is of another hart than its last writer's.
    pub(crate) fn other_at(&self, addr: u64) -> Option<Writer>
        ensures { result ≡ other_writer (written_at self.now addr) }
    {
        self.line(addr)?.other((addr % 64) as usize)
    }

    /// The line of an address, None where it isn't ready.
    pub(crate) fn line(&self, addr: u64) -> Option<&Line>
        ensures { option_copied result ≡ line_at self.now addr }
    {
        let at = self.find(addr / 64)?;
        self.lines.get(at)
    }

    /// The index of a line among those that are ready.
    fn find(&self, line: u64) -> Option<usize>
        ensures { result ≡ number_at self.now.index line }
    {
        if let Some(recent) = self.numbers.get(self.recent)
            && *recent == line
        {
            return Some(self.recent);
        }
        self.index.get(line)
    }
}
