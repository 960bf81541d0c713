//! Lists of messages.

ghost use Rattle.std.specs.Prelude.{◌≡◌, [], ◌∷◌, ◌++◌, length, OnOk, OnErr, IfSome, IfNone, slice_get};
ghost use Rattle.std.specs.Option.{option_copied};

use super::message::Message;
use std::alloc::{AllocError, Global};
use std::marker::Model;

/// Messages in the order in which they came.
#[derive(Debug, Drop)]
pub struct MessageList {
    items: Vec<Message>,
}

impl Model for MessageList {
    ghost use Rattle.std.specs.Prelude.{List};
    ghost use Rattle.msg_frames.specs.declared.message.Message.{Message};

    ghost Value = { List Message };

    ghost view = { λ list. list.items.items };
}

impl MessageList {
    /// The empty list, which takes no memory.
    pub fn new(alloc: Global) -> MessageList
        ensures { result ≡ [] }
    {
        MessageList {
            items: Vec::new(alloc),
        }
    }

    /// Puts a message at the end. Without memory nothing changes.
    pub fn push(&mut self, item: Message) -> Result<(), AllocError>
        ensures ok { OnOk result (self.new ≡ self.old ++ item ∷ []) }
        ensures err { OnErr result (self.new ≡ self.old) }
    {
        self.items.push(item)?;
        Ok(())
    }

    /// Takes the last message off. None exactly where there is none, and then nothing changes.
    pub fn pop(&mut self) -> Option<Message>
        ensures some { IfSome result (λ item. self.old ≡ self.new ++ item ∷ []) }
        ensures none { IfNone result ((self.old ≡ []) × (self.new ≡ [])) }
    {
        self.items.pop()
    }

    /// How many there are.
    pub fn len(&self) -> usize
        ensures { result ≡ length self.now }
    {
        self.items.len()
    }

    /// Message `k`, counted from 0. None exactly where `k` isn't below the length.
    pub fn get(&self, k: usize) -> Option<&Message>
        ensures { option_copied result ≡ slice_get self.now k }
    {
        self.items.get(k)
    }
}
