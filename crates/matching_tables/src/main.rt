//! Lists of messages, and the first fault of each: a test by its input and its output. A line of the
//! input has a name, an image from 0x80000000 on, and frames, in hexadecimal; a line of the output
//! has the name and the line of the fault. What has to come out was worked out by another
//! implementation of the same rules.
#![tactic(auto)]

use elf_image::{Image, Ram};
use matching::{Matching, Step};
use msg_frames::{Message, decode};
use std::alloc::{AllocError, Global};
use std::io;
use verdict_report::{Fault, Report, Verdict, line};

const RAM: [Ram; 1] = [Ram {
    base: 0x8000_1000,
    size: 0x1000,
}];

/// How many bytes a frame takes, by its first two; two where there are none.
fn frame_size(stream: &[u8], at: usize) -> usize {
    match (stream.get(at), stream.get(at.wrapping_add(1))) {
        (Some(low), Some(high)) => 2 + usize::from(*low) + 256 * usize::from(*high),
        _ => 2,
    }
}

/// The verdict that tells a fault.
fn rejected(number: u64, offset: usize, message: &Message, fault: Fault) -> Verdict {
    Verdict::Reject(Report {
        message: number,
        offset: offset as u64,
        head: Some(message.head),
        fault,
    })
}

/// The first fault in a stream, None where there is none.
fn first_fault(alloc: Global, image: &Image, stream: &[u8]) -> Result<Option<Verdict>, AllocError> {
    let mut state = Matching::new(alloc, image)?;
    let mut step = Step::new();
    let mut at: usize = 0;
    for number in 1..1000u64 {
        let end = at.wrapping_add(frame_size(stream, at));
        let Some(frame) = stream.get(at..end) else {
            return Ok(None);
        };
        let Ok(message) = decode(frame) else {
            return Ok(None);
        };
        match state.first_fault(image, number, &message, &mut step) {
            Some(fault) => return Ok(Some(rejected(number, at, &message, fault))),
            None => {}
        }
        state.put(number, &message, &step)?;
        at = end;
    }
    Ok(None)
}

/// Puts the line of the first fault in a stream over an image, and answers its length.
fn tell(
    alloc: Global,
    bytes: &[u8],
    stream: &[u8],
    out: &mut [u8; 256],
) -> Result<usize, AllocError> {
    let Ok(image) = Image::flat(alloc, bytes, 0x8000_0000, &RAM) else {
        return Ok(0);
    };
    match first_fault(alloc, &image, stream)? {
        Some(verdict) => Ok(line(&verdict, out)),
        None => Ok(0),
    }
}

/// The bytes of a text in hexadecimal, none where it is no such text.
fn bytes_of(alloc: Global, text: &str) -> Vec<u8> {
    match hex::decode(alloc, text) {
        Ok(bytes) => bytes,
        Err(_) => Vec::new(alloc),
    }
}

/// Writes the name of a list and the line of its first fault.
fn answer(rt: &HostRuntime, text: &str) -> io::Result<()> {
    let mut words = text.split(' ');
    let name = words.next().unwrap_or("");
    let image = bytes_of(rt.alloc(), words.next().unwrap_or(""));
    let stream = bytes_of(rt.alloc(), words.next().unwrap_or(""));
    let mut out = [0; 256];
    let end = tell(rt.alloc(), &image, &stream, &mut out)?;
    let told = out.get(..end.saturating_sub(1)).unwrap_or(b"");
    println!(rt; "{name}: {}", str::from_utf8(told).unwrap_or("?"))
}

fn main(rt: HostRuntime) -> io::Result<()> {
    for text in rt.lines(rt.alloc()) {
        let text = text?;
        answer(&rt, text.as_str())?;
    }
    Ok(())
}
