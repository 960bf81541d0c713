//! The sizes of frames.

ghost use Rattle.std.specs.Prelude.{◌≡◌, ◌≤◌, length};
ghost use Rattle.msg_frames.specs.Frames.{body_bytes, frame};

use super::message::{Body, Message};

/// How many bytes the frame of a message has, its two length bytes included: 20 to 514.
pub fn size(message: &Message) -> u16
    ensures value { result ≡ length (frame message.now) }
    ensures bound { (20 ≤ result) × (result ≤ 514) }
{
    20 + body_size(&message.body)
}

/// How many bytes the fields of a message take behind the head of its frame.
#[tactic(auto, using(crate::proofs::AgainRetire::length_retire))]
pub fn body_size(body: &Body) -> u16
    ensures value { result ≡ length (body_bytes body.now) }
    ensures bound { result ≤ 494 }
{
    match body {
        Body::Open(_) => 8,
        Body::Poke(_) => 12,
        Body::Read(piece) | Body::Insert(piece) | Body::Bypass(piece) => {
            9 + u16::from(piece.bytes.len())
        }
        Body::Write(write) => 16 + slice_size(&write.bytes),
        Body::Retire(retire) => 32 + 10 * retire.csrs.len() as u16,
        Body::Squash | Body::End => 0,
    }
}

fn slice_size(bytes: &[u8]) -> u16
    requires { length bytes.now ≤ 64 }
    ensures { result ≡ length bytes.now }
{
    bytes.len() as u16
}
