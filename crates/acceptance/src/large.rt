//! Runs that are larger than a careless body would take.

use super::support::{ADDI, OPEN, answers, inputs_of, joined};
use std::alloc::{AllocError, Global};
use std::test::Fail;
use tandem_io::Slot;

/// A JAL to the instruction after 64 KiB.
const JUMP_FAR: [u8; 4] = [0x6f, 0x00, 0x01, 0x00];

/// The retirement of that JAL and of an ADDI there, and the End.
const FAR: [&str; 3] = [
    "320007000100000000000000010000000000000000000080000000006f0001000000018000000000000000000000000000000000",
    "32000700020000000000000002000000000000000000018000000000930050000400018000000000020001000500000000000000",
    "1200090003000000000000000000000000000000",
];

/// The JAL, zeros up to where it jumps, and an ADDI.
fn far_code(alloc: Global) -> Result<Vec<u8>, AllocError> {
    let mut image = Vec::from_elem(alloc, 0u8, 65_536)?;
    image[..4].copy_from_slice(&JUMP_FAR);
    image.extend_from_slice(&ADDI)?;
    Ok(image)
}

/// Whether an image of a little more than 64 KiB is read by fewer than six calls on its slot, where
/// reads are as long as they are asked to be.
fn is_read_in_few_calls(alloc: Global) -> Result<bool, Fail> {
    let image = far_code(alloc)?;
    let stream = joined(alloc, &[OPEN, FAR[0], FAR[1], FAR[2]])?;
    let mut ins = inputs_of(alloc, &image, &stream, 1_000_000)?;
    ins.fail_at(Slot::Image, 6)?;
    let accepted = "ACCEPT messages=4 retired=2 operations=0\n";
    Ok(answers(alloc, &mut ins, accepted, 0)?)
}

#[test]
fn an_image_is_read_in_pieces_of_32_kib_at_least(rt: HostRuntime) -> Result<(), Fail> {
    // It is attached, and its 65540 bytes are at most three such pieces. The call after these finds its end.
    assert!(rt; is_read_in_few_calls(rt.alloc())?);
    Ok(())
}

/// Adds the report of a JAL to itself, with this time and this tag.
fn add_jump(stream: &mut Vec<u8>, number: u64) -> Result<(), AllocError> {
    stream.extend_from_slice(&[50, 0, 7, 0])?;
    stream.extend_from_slice(&number.to_le_bytes())?;
    stream.extend_from_slice(&number.to_le_bytes())?;
    stream.extend_from_slice(
        b"\x00\x00\x00\x80\x00\x00\x00\x00\x6f\x00\x00\x00\x00\x00\x00\x80\x00\x00\x00\x00\
          \x00\x00\x00\x00\x00\x00\x00\x00\x00\x00\x00\x00",
    )
}

/// Adds so many of them.
fn add_jumps(stream: &mut Vec<u8>, count: u64) -> Result<(), AllocError> {
    for number in 1..=count.min(1_000_000) {
        add_jump(stream, number)?;
    }
    Ok(())
}

/// The Open, so many Retires of the jump, and the End.
fn jumps(alloc: Global, count: u64) -> Result<Vec<u8>, Fail> {
    let mut stream = joined(alloc, &[OPEN])?;
    add_jumps(&mut stream, count)?;
    stream.extend_from_slice(&[18, 0, 9, 0])?;
    stream.extend_from_slice(&count.to_le_bytes())?;
    stream.extend_from_slice(&[0; 8])?;
    Ok(stream)
}

/// Whether ten thousand messages are taken.
fn are_taken(alloc: Global) -> Result<bool, Fail> {
    let stream = jumps(alloc, 9998)?;
    let mut ins = inputs_of(alloc, &[0x6f, 0x00, 0x00, 0x00], &stream, 4096)?;
    let accepted = "ACCEPT messages=10000 retired=9998 operations=0\n";
    Ok(answers(alloc, &mut ins, accepted, 0)?)
}

#[test]
fn ten_thousand_messages_are_taken(rt: HostRuntime) -> Result<(), Fail> {
    assert!(rt; are_taken(rt.alloc())?);
    Ok(())
}
