//! Runs over the bytes of memory.

ghost use Rattle.std.specs.Prelude.{◌<◌, ◌≤◌, ◌+◌, ◌^◌};

use crate::image::image;
use byte_memory::{Capture, Memory, StoreCapture, Writer};
use elf_image::Image;
use msg_frames::Piece;
use speed_runs::{Order, Run, Told, read};
use std::alloc::{AllocError, Global};
use std::io;
use std::time::Instant;
use tandem_base::{Bytes8, Extent, Position};

/// What the calls of a run answered.
pub(crate) fn answers(rt: &HostRuntime, run: &Run) -> io::Result<Told> {
    let image = image(rt.alloc())?;
    let addresses = run.order.addresses(rt.alloc(), run.entries, run.calls)?;
    let mut memory = filled(rt.alloc(), run.order, run.entries)?;
    let start = Instant::now(rt)?;
    let sum = match run.call {
        "store" => stores(&mut memory, run.order, &addresses)?,
        "load" => loads(&mut memory, &image, &addresses),
        _ => atomics(&mut memory, &image, &addresses),
    };
    read(rt, &start, sum)
}

/// A store, of one hart in the quiet order, and else of one hart or another.
fn writer(order: Order, number: u32) -> Writer {
    let hart = match order {
        Order::Quiet => 0,
        Order::Random | Order::Worst => (number / 16 % 4) as u8,
    };
    Writer {
        hart,
        tag: u64::from(number),
        place: Position {
            message: number,
            insert: number,
        },
    }
}

/// Eight bytes.
fn bytes() -> Option<Bytes8> {
    Bytes8::new(&[1, 2, 3, 4, 5, 6, 7, 8])
}

/// Makes the lines of eight bytes ready, and stores them.
fn store(memory: &mut Memory, addr: u64, bytes: Bytes8, writer: &Writer) -> Result<(), AllocError>
    requires { addr + 8 ≤ 2 ^ 64 }
{
    memory.ready(addr)?;
    memory.ready(addr + 7)?;
    memory.store(&Piece { addr, bytes }, writer);
    Ok(())
}

/// Memory in which each doubleword of so many lines was stored to.
pub(crate) fn filled(alloc: Global, order: Order, entries: u32) -> Result<Memory, AllocError> {
    let mut memory = Memory::new(alloc);
    if let Some(bytes) = bytes() {
        for k in 0..entries {
            fill_line(&mut memory, order.line(k), bytes, &writer(order, k))?;
        }
    }
    Ok(memory)
}

/// Stores to each doubleword of a line.
fn fill_line(
    memory: &mut Memory,
    line: u64,
    bytes: Bytes8,
    writer: &Writer,
) -> Result<(), AllocError>
    requires { line + 128 ≤ 2 ^ 64 }
{
    for k in 0..8u64 {
        store(memory, line + k * 8, bytes, writer)?;
    }
    Ok(())
}

/// Stores of eight bytes each, their lines made ready before.
fn stores(memory: &mut Memory, order: Order, addresses: &[u64]) -> Result<u64, AllocError> {
    let Some(bytes) = bytes() else {
        return Ok(0);
    };
    let mut number: u32 = 1_000_000;
    for addr in addresses {
        number = number.wrapping_add(1);
        if *addr <= u64::MAX - 7 {
            store(memory, *addr, bytes, &writer(order, number))?;
        }
    }
    Ok(u64::from(number))
}

/// What loads of eight bytes see, their lines looked up before, and the captures made in place.
fn loads(memory: &mut Memory, image: &Image, addresses: &[u64]) -> u64 {
    let place = Position {
        message: 0,
        insert: 0,
    };
    let Some(extent) = Extent::new(0, 1) else {
        return 0;
    };
    let mut capture = Capture::take(memory, image, &extent, place);
    let mut sum: u64 = 0;
    for addr in addresses {
        if let Some(extent) = Extent::new(*addr, 8) {
            memory.look(*addr);
            capture.retake(memory, image, &extent, place);
            sum = sum
                .wrapping_add(u64::from(capture.values[1]))
                .wrapping_add(capture.base);
        }
    }
    sum
}

/// What stores of an aligned doubleword that aren't of the merge buffer see, with blocks of 64 bytes.
fn atomics(memory: &mut Memory, image: &Image, addresses: &[u64]) -> u64 {
    let place = Position {
        message: 0,
        insert: 0,
    };
    let mut sum: u64 = 0;
    for addr in addresses {
        if let Some(extent) = Extent::new(*addr - *addr % 8, 8) {
            memory.look(*addr);
            let capture = StoreCapture::take(memory, image, &extent, place, 1, 64);
            sum = sum.wrapping_add(foreign_tag(&capture));
        }
    }
    sum
}

/// The tag of the latest store by another hart to the block.
fn foreign_tag(capture: &StoreCapture) -> u64 {
    match capture.foreign {
        Some(foreign) => foreign.writer.tag,
        None => 0,
    }
}
