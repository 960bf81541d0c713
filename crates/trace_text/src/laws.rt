//! Laws of texts.

ghost use Rattle.std.specs.Prelude.{◌≡◌, List, All, Ok};
ghost use Rattle.msg_frames.specs.declared.message.Message.{Message};
ghost use Rattle.trace_text.specs.Lines.{text_of};
ghost use Rattle.trace_text.specs.Texts.{Spellable, text_read};

/// Law: the text of messages that have lines is read as these messages.
pub fn texts_are_read_back()
    ensures { (messages : List Message) → All Spellable messages → text_read (text_of messages) ≡ Ok messages }
{}

/// Law: a text tells one list of messages.
pub fn texts_tell_one_list()
    ensures { (these those : List Message) → All Spellable these → All Spellable those
        → text_of these ≡ text_of those → these ≡ those }
{}
