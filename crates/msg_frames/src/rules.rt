//! The rules that the fields of a message keep.

ghost use Rattle.std.specs.Prelude.{◌≡◌, ◌<◌, ◌↔◌, ℕ, IsTrue, length, slice_index};
ghost use Rattle.std.specs.Int.{bit_at};
ghost use Rattle.msg_frames.specs.Frames.{FitsOpen, FitsTarget, FitsWrite, FitsRetire, FitsPiece};
ghost use Rattle.msg_frames.specs.Frames.{FitsBody, Fits};

use super::checks::{is_poked_csr, unmasked_zeros};
use super::message::{Body, Head, LineWrite, Message, OpenInfo, Piece, Poke, Retire, Target};

/// Whether a message keeps the rules of its fields, so that it has a frame.
pub fn well_formed(message: &Message) -> bool
    ensures { IsTrue result ↔ Fits message.now }
{
    body_fits(message.head, &message.body)
}

fn body_fits(head: Head, body: &Body) -> bool
    ensures { IsTrue result ↔ FitsBody head body.now }
{
    match body {
        Body::Open(info) => head.hart == 0 && head.tag == 0 && open_fits(info),
        Body::Poke(poke) => head.tag == 0 && target_fits(poke),
        Body::Read(piece) | Body::Insert(piece) | Body::Bypass(piece) => piece_fits(piece),
        Body::Write(write) => head.tag == 0 && write_fits(write),
        Body::Retire(retire) => retire_fits(retire),
        Body::Squash => true,
        Body::End => head.hart == 0 && head.tag == 0,
    }
}

fn open_fits(info: &OpenInfo) -> bool
    ensures { IsTrue result ↔ FitsOpen info.now }
{
    info.version == 1
        && 1 <= info.harts
        && info.harts <= 16
        && info.flags < 4
        && info.granule == 0
        && info.skew == 0
}

fn target_fits(poke: &Poke) -> bool
    ensures { IsTrue result ↔ FitsTarget poke.now.target poke.now.value }
{
    match poke.target {
        Target::Pc => poke.value % 4 == 0,
        Target::X(number) => 1 <= number && number <= 31,
        Target::Csr(number) => is_poked_csr(number),
    }
}

fn piece_fits(piece: &Piece) -> bool
    ensures { IsTrue result ↔ FitsPiece piece.now }
{
    let length = piece.bytes.len();
    1 <= length && length <= 8
}

fn write_fits(write: &LineWrite) -> bool
    ensures { IsTrue result ↔ FitsWrite write.now }
{
    write.line % 64 == 0 && is_masked(write.mask, &write.bytes)
}

/// Whether the bytes of a line are 0 outside the mask.
fn is_masked(mask: u64, bytes: &[u8]) -> bool
    requires { length bytes.now ≡ 64 }
    ensures { IsTrue result ↔ ((k : ℕ) → k < 64 → bit_at mask k ≡ 0 → slice_index bytes.now k ≡ 0) }
{
    unmasked_zeros(mask, bytes).is_ok()
}

fn retire_fits(retire: &Retire) -> bool
    ensures { IsTrue result ↔ FitsRetire retire.now }
{
    let few = retire.csrs.len() <= 4;
    match retire.rd {
        Some(rd) => 1 <= rd.number && rd.number <= 31 && few,
        None => few,
    }
}
