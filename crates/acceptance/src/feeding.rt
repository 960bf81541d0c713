//! The checker as a caller has it that feeds it one message at a time.

use super::support::{ADDI, END, OPEN, RETIRE};
use elf_image::Image;
use msg_frames::decode;
use std::alloc::Global;
use std::test::Fail;
use tandem_core::{Core, Fed, Limits};

/// What the End is answered with.
const DONE: Fed = Fed::Done {
    messages: 3,
    retired: 1,
    operations: 0,
};

/// Feeds the checker the message that the frame spells.
fn feed(alloc: Global, core: &mut Core, frame: &str) -> Result<Fed, Fail> {
    let bytes = hex::decode(alloc, frame)?;
    let message = decode(&bytes)?;
    Ok(core.feed(&message)?)
}

#[test]
fn answers_each_message_that_it_is_fed(rt: HostRuntime) -> Result<(), Fail> {
    let alloc = rt.alloc();
    let image = Image::flat(alloc, &ADDI, 0x8000_0000, &[])?;
    let mut core = Core::start(alloc, &image, &Limits::CEILINGS);
    for (frame, answer) in [
        (OPEN, Fed::Fine),
        (RETIRE, Fed::Fine),
        (END, DONE),
        (END, DONE),
    ] {
        assert_eq!(rt; feed(alloc, &mut core, frame)?, answer);
    }
    assert_eq!(rt; core.count(), 3);
    assert_eq!(rt; core.offset(), 100);
    Ok(())
}
