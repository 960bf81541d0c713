//! The messages of a text.

ghost use Rattle.std.specs.Prelude.{◌≡◌, ◌⊎◌, List, All, Ok, Err, IfOk};
ghost use Rattle.msg_frames.specs.declared.message.Message.{Message};
ghost use Rattle.trace_text.specs.Lines.{text_of};
ghost use Rattle.trace_text.specs.Texts.{Spellable, text_read};
ghost use Rattle.trace_text.specs.declared.fault.TextFault.TheVariants.{Memory};

use super::fault::TextFault;
use super::text_line::next_line;
use msg_frames::MessageList;
use std::alloc::Global;

/// The messages whose lines the text is, one behind the other. Else the line and the column of the
/// first thing that is wrong; or there was no memory for the messages.
pub fn from_text(alloc: Global, text: &[u8]) -> Result<MessageList, TextFault>
    ensures exact { (result ≡ Err Memory) ⊎ (result ≡ text_read text.now) }
    ensures accepted { IfOk result (λ messages. (text.now ≡ text_of messages) × All Spellable messages) }
    ensures only { (messages : List Message) → All Spellable messages → text.now ≡ text_of messages
        → (result ≡ Err Memory) ⊎ (result ≡ Ok messages) }
{
    read_lines(alloc, text)
}

// The same, line by line.
fn read_lines(alloc: Global, text: &[u8]) -> Result<MessageList, TextFault>
    ensures { (result ≡ Err Memory) ⊎ (result ≡ text_read text.now) }
{
    let mut messages = MessageList::new(alloc);
    let mut start = 0;
    let mut number = 1;
    loop {
        match next_line(text, start) {
            Err(column) => {
                return Err(TextFault::Form {
                    line: number,
                    column,
                });
            }
            Ok(None) => return Ok(messages),
            Ok(Some(line)) => {
                match messages.push(line.message) {
                    Ok(()) => {}
                    Err(_e) => return Err(TextFault::Memory),
                }
                start = line.next;
                number += 1;
            }
        }
    }
}
