//! How frames are decoded.

ghost use Rattle.std.specs.Prelude.{◌≡◌, Ok, IfOk, IfErr, OnOk, OnErr};
ghost use Rattle.msg_frames.specs.declared.message.Message.{Message};
ghost use Rattle.msg_frames.specs.Frames.{Spells};
ghost use Rattle.msg_frames.specs.Reading.{reading};

use super::message::{FrameFault, Message};
use super::reading::read_into;

/// The message that a whole frame spells, its two length bytes included, and else how the bytes
/// break the form of a frame.
///
/// The faults come in this order: a length that is not 18 to 512, or not that of the bytes; a kind
/// that is none; a length that the kind has not; the first field that breaks a rule.
pub fn decode(frame: &[u8]) -> Result<Message, FrameFault>
    ensures value { result ≡ reading frame.now }
    ensures found { IfOk result (Spells frame.now) }
    ensures only { (message : Message) → Spells frame.now message → result ≡ Ok message }
{
    let mut message = Message::blank();
    read_into(frame, &mut message)?;
    Ok(message)
}

/// As `decode`, into a message that is lent: it is made the one that the frame spells. Where the
/// bytes break the form of a frame it stays as it is.
pub(crate) fn decode_into(frame: &[u8], message: &mut Message) -> Result<(), FrameFault>
    ensures value { OnOk result (reading frame.now ≡ Ok message.new) }
    ensures found { OnOk result (Spells frame.now message.new) }
    ensures fault { IfErr result (λ fault. reading frame.now ≡ Err fault) }
    ensures kept { OnErr result (message.new ≡ message.old) }
    ensures only { (m : Message) → Spells frame.now m → (result ≡ Ok tt) × (message.new ≡ m) }
{
    read_into(frame, message)
}
