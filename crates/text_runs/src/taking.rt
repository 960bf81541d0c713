//! A text, taken whole from a source.

ghost use Rattle.std.specs.Prelude.{◌≡◌, ◌<◌, ◌≤◌, List, ℕ, length};
ghost use Rattle.tandem_io.specs.Causes.{Rose};
ghost use Rattle.msg_frames.specs.Taking.{TakenFrom};
ghost use Rattle.text_runs.specs.Taking.{TextIs};

use std::alloc::Global;
use tandem_io::{Failed, Source};

/// The most bytes that a text may have: 64 MiB.
pub const MOST_TEXT_BYTES: usize = 67_108_864;

// How many bytes are asked for at a time.
const PIECE: usize = 65_536;

/// What comes of taking a text whole.
#[derive(Debug, Drop)]
pub enum TakenText {
    /// All its bytes.
    Text(Vec<u8>),
    /// It has more bytes than a text may have.
    TooLarge,
    /// A read failed.
    Failed,
    /// Memory was refused.
    Memory,
}

/// Takes all that is left of a source, or one byte more than a text may have. No memory is asked for
/// when that byte has come.
pub fn take_text<S: Source>(alloc: Global, src: &mut S) -> TakenText
    ensures text { (got : List ℕ) × TakenFrom (S.left src.old) (S.left src.new) (S.log src.old) (S.log src.new) got
        × TextIs result got (S.left src.new) (S.ended src.new) }
    ensures cause { result ≡ TakenText.Failed → Rose (S.faults src.old) (S.faults src.new) }
    ensures count { S.faults src.old ≤ S.faults src.new }
    ensures beside { S.aside src.new ≡ S.aside src.old }
{
    match Vec::from_elem(alloc, 0, PIECE) {
        Ok(mut piece) => take_by(alloc, src, &mut piece),
        Err(_) => TakenText::Memory,
    }
}

// The same, by pieces that are as long as this one.
fn take_by<S: Source>(alloc: Global, src: &mut S, piece: &mut [u8]) -> TakenText
    requires { 0 < length piece.old }
    ensures text { (got : List ℕ) × TakenFrom (S.left src.old) (S.left src.new) (S.log src.old) (S.log src.new) got
        × TextIs result got (S.left src.new) (S.ended src.new) }
    ensures cause { result ≡ TakenText.Failed → Rose (S.faults src.old) (S.faults src.new) }
    ensures count { S.faults src.old ≤ S.faults src.new }
    ensures beside { S.aside src.new ≡ S.aside src.old }
{
    let mut bytes = Vec::new(alloc);
    loop {
        let free = MOST_TEXT_BYTES - bytes.len();
        let room = (free + 1).min(piece.len());
        match src.read(&mut piece[..room]) {
            Ok(0) => return TakenText::Text(bytes),
            Ok(n) if n > free => return TakenText::TooLarge,
            Ok(n) => {
                if bytes.extend_from_slice(&piece[..n]).is_err() {
                    return TakenText::Memory;
                }
            }
            Err(Failed) => return TakenText::Failed,
        }
    }
}
