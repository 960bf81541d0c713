//! One line of a text.

ghost use Rattle.std.specs.Prelude.{◌≡◌, ◌<◌, ◌≤◌, ⊤, length, IfOk, MatchOption};
ghost use Rattle.msg_frames.specs.Frames.{Fits};
ghost use Rattle.trace_text.specs.Texts.{text_line_at};

use super::reading::line_read;
use super::words::part_from;
use msg_frames::Message;

/// A line that was read from a text.
#[derive(Debug, Drop)]
pub struct TextLine {
    /// The message that it spells.
    pub message: Message,
    /// The offset in the text at which the next line begins.
    pub next: usize,
}

/// The line that begins at offset `start` of a text, or none where the text ends there. Else the
/// column, from 1, of what is wrong in the line. Takes no memory.
#[tactic(auto, unfolding(crate::specs::Texts::text_line_at))]
pub fn next_line(text: &[u8], start: usize) -> Result<Option<TextLine>, u64>
    requires { start ≤ length text.now }
    ensures read { result ≡ text_line_at text.now start }
    ensures fits { IfOk result (λ line. MatchOption line ⊤ (λ l. Fits l.message)) }
    ensures bound { IfOk result (λ line. MatchOption line ⊤ (λ l. (start < l.next) × (l.next ≤ length text.now))) }
{
    if start == text.len() {
        return Ok(None);
    }
    let line = part_from(text, start, b'\n');
    let end = start + line.len();
    match line_read(line) {
        Err(place) => Err(place as u64 + 1),
        Ok(message) => {
            if end < text.len() {
                Ok(Some(TextLine {
                    message,
                    next: end + 1,
                }))
            } else {
                Err((end - start) as u64 + 1)
            }
        }
    }
}
