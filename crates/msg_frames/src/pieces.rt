//! The bytes that a message tells, at their addresses.

ghost use Rattle.std.specs.Prelude.{◌≡◌, ◌+◌, ◌<◌};
ghost use Rattle.msg_frames.specs.Pieces.{byte_written};

use super::message::LineWrite;

impl LineWrite {
    /// The byte that a Write tells at `line + k`, None where the mask has none.
    pub fn byte(&self, k: u8) -> Option<u8>
        requires { k < 64 }
        ensures { result ≡ byte_written self.now (self.now.line + k) }
    {
        if (self.mask >> k) % 2 == 1 {
            Some(self.bytes[usize::from(k)])
        } else {
            None
        }
    }
}
