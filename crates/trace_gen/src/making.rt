//! The image and the messages.

ghost use Rattle.std.specs.Prelude.{◌≡◌, IfOk};
ghost use Rattle.std.specs.List.{All};
ghost use Rattle.elf_image.specs.Images.{loaded_of};
ghost use Rattle.msg_frames.specs.Frames.{Fits};
ghost use Rattle.trace_gen.specs.Program.{made_image};
ghost use Rattle.trace_gen.specs.Making.{CanMake, made_messages};

use super::image::made_image;
use super::schedule::Run;
use elf_image::Image;
use msg_frames::MessageList;
use std::alloc::{AllocError, Global};

/// A stream that was made, and the image against which it is valid.
#[derive(Debug, Drop)]
pub struct Made {
    /// The image.
    pub image: Image,
    /// The messages, in their order.
    pub messages: MessageList,
}

/// Makes the stream of 1 to 16 harts, each of which goes round the program `count` times, in turns
/// that the seed decides. There are at most 100,000 rounds together. The same numbers give the same
/// stream. An error is want of memory.
pub fn make(alloc: Global, seed: u64, harts: u8, count: u32) -> Result<Made, AllocError>
    requires { CanMake harts count }
    ensures image { IfOk result (λ made. loaded_of made.image ≡ made_image) }
    ensures messages { IfOk result (λ made. made.messages ≡ made_messages seed harts count) }
    ensures fits { IfOk result (λ made. All Fits made.messages) }
{
    let image = made_image(alloc)?;
    let messages = made_messages(alloc, seed, harts, count)?;
    Ok(Made { image, messages })
}

// The messages.
fn made_messages(alloc: Global, seed: u64, harts: u8, count: u32) -> Result<MessageList, AllocError>
    requires { CanMake harts count }
    ensures { IfOk result (λ messages. messages ≡ made_messages seed harts count) }
{
    let mut run = Run::open(alloc, seed, harts)?;
    for _turn in 0..13 * u32::from(harts) * count {
        run.turn(count)?;
    }
    run.close()
}
