//! Made streams: a test by its input and its output. A line of the input has a seed, how many harts
//! and how many rounds. The output has the numbers, the bytes of the program, and the frame of each
//! message in hexadecimal; what has to come out was worked out by another implementation of the same
//! rules. Where a line has a fourth word, the output has how many messages there are alone.
#![tactic(auto)]

ghost use Rattle.std.specs.Prelude.{◌≡◌, ◌≤◌, ◌*◌, IfSome};

use elf_image::Image;
use msg_frames::{Message, MessageList, encode, well_formed};
use std::alloc::Global;
use std::io;
use trace_gen::make;

/// The seed, the harts and the rounds of a line.
#[derive(Clone, Copy)]
struct Asked {
    seed: u64,
    harts: u8,
    rounds: u32,
}

/// What a line asks for. None where it can't be made.
fn read_words(text: &str) -> Option<Asked>
    ensures { IfSome result (λ a. (1 ≤ a.harts) × (a.harts ≤ 16) × (1 ≤ a.rounds) × (a.harts * a.rounds ≤ 100000)) }
{
    let mut words = text.split(' ');
    let seed = words.next()?.parse::<u64>().ok()?;
    let harts = words.next()?.parse::<u8>().ok()?;
    let rounds = words.next()?.parse::<u32>().ok()?;
    let whole = u64::from(harts) * u64::from(rounds);
    if 1 <= harts && harts <= 16 && 1 <= rounds && whole <= 100_000 {
        Some(Asked {
            seed,
            harts,
            rounds,
        })
    } else {
        None
    }
}

/// Writes bytes in hexadecimal.
fn write_hex(rt: &HostRuntime, bytes: &[u8]) -> io::Result<()> {
    match hex::encode(rt.alloc(), bytes) {
        Ok(text) => println!(rt; "{}", text.as_str()),
        Err(_) => Ok(()),
    }
}

/// Writes the bytes of the program.
fn write_program(rt: &HostRuntime, image: &Image) -> io::Result<()> {
    let mut bytes = [0; 28];
    for k in 0..28 {
        bytes[k] = image.byte(0x8000_0000 + k as u64).unwrap_or(0);
    }
    write_hex(rt, &bytes)
}

/// Writes the frame of a message.
fn write_message(rt: &HostRuntime, message: &Message) -> io::Result<()> {
    if !well_formed(message) {
        return println!(rt; "not well-formed");
    }
    let mut frame = [0; 514];
    let size = encode(message, &mut frame);
    write_hex(rt, &frame[..size])
}

/// Writes the frames of messages.
fn write_messages(rt: &HostRuntime, messages: &MessageList) -> io::Result<()> {
    for k in 0..messages.len() {
        if let Some(message) = messages.get(k) {
            write_message(rt, message)?;
        }
    }
    Ok(())
}

/// Answers a line.
fn answer(rt: &HostRuntime, text: &str) -> io::Result<()> {
    let Some(asked) = read_words(text) else {
        return println!(rt; "{text}: none");
    };
    let made = make(rt.alloc(), asked.seed, asked.harts, asked.rounds)?;
    println!(rt; "{text}: {} messages", made.messages.len())?;
    if text.split(' ').count() > 3 {
        return Ok(());
    }
    write_program(rt, &made.image)?;
    write_messages(rt, &made.messages)
}

fn main(rt: HostRuntime) -> io::Result<()> {
    for text in rt.lines(rt.alloc()) {
        let text = text?;
        answer(&rt, text.as_str())?;
    }
    Ok(())
}
