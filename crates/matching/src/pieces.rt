//! Bytes of memory, and where they differ.

ghost use Rattle.std.specs.Prelude.{◌≡◌, ◌+◌, ◌≤◌, ◌<◌, ◌^◌, length, IfSome};
ghost use Rattle.msg_frames.specs.Pieces.{has, byte_in};
ghost use Rattle.matching.specs.Pieces.{line_start, first_other};
ghost use Rattle.matching.specs.PartFaults.{is_in_space, is_in_line, is_within};

use msg_frames::Piece;

/// Whether x is the address of one of the bytes.
pub fn has_byte(piece: &Piece, x: u128) -> bool
    ensures { result ≡ has piece.now x }
{
    let addr = u128::from(piece.addr);
    addr <= x && x - addr < u128::from(piece.bytes.len())
}

/// The byte at an address, None where it isn't one of them.
pub fn byte_at(piece: &Piece, x: u64) -> Option<u8>
    ensures { result ≡ byte_in piece.now x }
{
    if piece.addr <= x && x - piece.addr < u64::from(piece.bytes.len()) {
        Some(piece.bytes.byte((x - piece.addr) as u8))
    } else {
        None
    }
}

/// The first address of the line of x.
pub fn line_at(x: u128) -> u128
    ensures { result ≡ line_start x }
{
    x / 64 * 64
}

/// Whether the bytes don't pass 2^64.
pub fn fits_space(piece: &Piece) -> bool
    ensures { result ≡ is_in_space piece.now }
{
    u128::from(piece.addr) + u128::from(piece.bytes.len()) <= 1 << 64
}

/// Whether the bytes are of one line.
pub fn fits_line(piece: &Piece) -> bool
    ensures { result ≡ is_in_line piece.now }
{
    let addr = u128::from(piece.addr);
    line_at(addr) == line_at(addr + u128::from(piece.bytes.len()) - 1)
}

/// How far behind an address is the first of `len` bytes in which two pieces differ.
pub fn first_different(want: &Piece, got: &Piece, base: u64, len: u8) -> Option<u8>
    requires { base + len ≤ 2 ^ 64 }
    ensures bound { IfSome result (λ k. k < len) }
    ensures value { result ≡ first_other (byte_in want.now) (byte_in got.now) base len }
{
    let mut first = None;
    for k in 0..len {
        let x = base + u64::from(k);
        if first.is_none() && byte_at(want, x) != byte_at(got, x) {
            first = Some(k);
        }
    }
    first
}

/// Whether all bytes of a piece are among those of another.
pub fn is_inside(piece: &Piece, whole: &Piece) -> bool
    ensures { result ≡ is_within piece.now whole.now }
{
    whole.addr <= piece.addr
        && u128::from(piece.addr) + u128::from(piece.bytes.len())
            <= u128::from(whole.addr) + u128::from(whole.bytes.len())
}
