//! The bytes of a line, merged.

ghost use Rattle.std.specs.Prelude.{◌≡◌, ◌+◌, ◌*◌, ◌/◌, ◌<◌, ◌≤◌, ◌==◌, ℕ, length, None};
ghost use Rattle.std.specs.Int.{bit_at};
ghost use Rattle.std.specs.Prelude.{◌%◌, IfSome, IfNone};
ghost use Rattle.msg_frames.specs.Pieces.{byte_in, byte_written};
ghost use Rattle.merge_buffer.specs.Parts.{IsWithinLine};
ghost use Rattle.tandem_base.specs.FirstFault.{◌or_else◌};
ghost use Rattle.merge_buffer.specs.Chains.{merged_byte, IsFirstDifference};

use msg_frames::{LineWrite, Piece};

/// The bytes of a line that wait. Bit k of the mask is byte k; the bytes outside it are 0.
#[derive(Clone, Copy, Debug)]
pub struct Merged {
    pub mask: u64,
    pub bytes: [u8; 64],
}

/// Whether bit `k` of a mask is set.
pub fn is_set(mask: u64, k: u8) -> bool
    requires { k < 64 }
    ensures { result ≡ (bit_at mask k == 1) }
{
    (mask >> k) % 2 == 1
}

impl Merged {
    ghost use Rattle.std.specs.Prelude.{◌≡◌, ◌≢◌, ◌+◌, ◌*◌, ◌/◌, ◌<◌, ◌≤◌, ◌==◌, ℕ, length, None, Some, if◌then◌else◌};
    ghost use Rattle.msg_frames.specs.Pieces.{byte_in};
    ghost use Rattle.merge_buffer.specs.Parts.{IsWithinLine};
    ghost use Rattle.tandem_base.specs.FirstFault.{◌or_else◌};
    ghost use Rattle.merge_buffer.specs.Chains.{merged_byte};

    /// A line in which nothing waits.
    pub fn new() -> Merged
        ensures { (k : ℕ) → merged_byte result k ≡ None }
    {
        Merged {
            mask: 0,
            bytes: [0; 64],
        }
    }

    /// Byte `k`, None where nothing waits.
    pub fn byte(&self, k: u8) -> Option<u8>
        requires { k < 64 }
        ensures { result ≡ merged_byte self.now k }
    {
        if is_set(self.mask, k) {
            Some(self.bytes[k as usize])
        } else {
            None
        }
    }

    /// Puts a byte where none is yet.
    pub fn add_byte(&mut self, k: u8, byte: u8)
        requires { k < 64 }
        ensures there { merged_byte self.new k ≡ merged_byte self.old k or_else Some byte }
        ensures others { (j : ℕ) → j ≢ k → merged_byte self.new j ≡ merged_byte self.old j }
    {
        let taken = is_set(self.mask, k);
        if !taken {
            self.mask |= 1 << k;
            self.bytes[k as usize] = byte;
        }
    }

    /// Puts the bytes of a piece where none is yet.
    pub fn add(&mut self, line: u64, piece: &Piece)
        requires within { IsWithinLine piece.now }
        requires line { piece.now.addr / 64 ≡ line }
        ensures { (k : ℕ) → k < 64 →
            merged_byte self.new k ≡ merged_byte self.old k or_else byte_in piece.now (line * 64 + k) }
    {
        let first = (piece.addr % 64) as u8;
        for k in 0..piece.bytes.len() {
            self.add_byte(first + k, piece.bytes.byte(k));
        }
    }
}

/// Where a Write differs from what waits: the address, the byte that waits and the one that is
/// reported, None where there is none.
#[derive(Clone, Copy, Debug, PartialEq, Eq)]
pub struct Difference {
    pub at: u64,
    pub want: Option<u8>,
    pub got: Option<u8>,
}

/// The lowest address at which a Write differs from the bytes that wait.
pub fn first_difference(merged: &Merged, write: &LineWrite) -> Option<Difference>
    requires { write.now.line % 64 ≡ 0 }
    ensures none { IfNone result ((k : ℕ) → k < 64 → merged_byte merged.now k
        ≡ byte_written write.now (write.now.line + k)) }
    ensures some { IfSome result (λ d. IsFirstDifference merged.now write.now d) }
{
    if merged.mask == write.mask && merged.bytes == write.bytes {
        return None;
    }
    for k in 0..64 {
        let want = merged.byte(k);
        let got = write.byte(k);
        if want != got {
            return Some(Difference {
                at: write.line + u64::from(k),
                want,
                got,
            });
        }
    }
    None
}
