//! The bytes of messages.

ghost use Rattle.std.specs.Prelude.{◌≡◌, IfOk};
ghost use Rattle.std.specs.List.{All, flat_map};
ghost use Rattle.msg_frames.specs.Frames.{Fits, frame};
ghost use Rattle.gen_runs.specs.Verdicts.{flipped};

use msg_frames::{MessageList, encode};
use std::alloc::{AllocError, Global};

/// The frames of the messages, one behind the other.
pub fn frames_of(alloc: Global, messages: &MessageList) -> Result<Vec<u8>, AllocError>
    requires { All Fits messages.now }
    ensures { IfOk result (λ bytes. bytes.items ≡ flat_map frame messages.now) }
{
    let mut buffer = [0; 514];
    gather(alloc, messages, &mut buffer)
}

// The same, by way of a buffer for one frame.
fn gather(
    alloc: Global,
    messages: &MessageList,
    buffer: &mut [u8; 514],
) -> Result<Vec<u8>, AllocError>
    requires { All Fits messages.now }
    ensures { IfOk result (λ bytes. bytes.items ≡ flat_map frame messages.now) }
{
    let mut bytes = Vec::new(alloc);
    for k in 0..messages.len() {
        let Some(message) = messages.get(k) else {
            unreachable!()
        };
        let size = encode(message, buffer);
        bytes.extend_from_slice(&buffer[..size])?;
    }
    Ok(bytes)
}

/// Flips the lowest bit of a byte, if one is named and there.
pub fn flip(bytes: &mut Vec<u8>, at: Option<u64>)
    ensures { bytes.new.items ≡ flipped at bytes.old.items }
{
    let Some(at) = at else { return };
    let at = at as usize;
    if at < bytes.len() {
        bytes[at] ^= 1;
    }
}
