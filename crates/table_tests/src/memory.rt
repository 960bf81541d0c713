//! Worked streams, as memory sees them: X is 0x80001000 and Y is 0x80001040.

ghost use Rattle.std.specs.Prelude.{◌<◌, ◌^◌};

use byte_memory::{Capture, Foreign, Memory, StoreCapture, Writer};
use elf_image::{Image, ImageFault, Ram};
use msg_frames::Piece;
use std::alloc::Global;
use std::test::Fail;
use tandem_base::{Bytes8, Extent, Position};

const X: u64 = 0x8000_1000;

const Y: u64 = 0x8000_1040;

/// A hart and the tag of its store.
type Name = (u8, u64);

/// One word of code, `addi x1,x0,5`, and RAM.
fn image(alloc: Global) -> Result<Image, ImageFault> {
    let ram = Ram {
        base: X,
        size: 0x1000,
    };
    Image::flat(alloc, &[0x93, 0, 0x50, 0], 0x8000_0000, &[ram])
}

fn place(message: u32, insert: u32) -> Position {
    Position { message, insert }
}

fn writer(name: Name, message: u32, insert: u32) -> Writer {
    Writer {
        hart: name.0,
        tag: name.1,
        place: place(message, insert),
    }
}

/// Stores these bytes, in lines that are made ready.
fn store(memory: &mut Memory, addr: u64, value: &[u8], writer: &Writer) -> Result<(), Fail>
    requires { addr < 2 ^ 63 }
{
    let bytes = Bytes8::new(value).ok_or("no bytes")?;
    memory.ready(addr)?;
    memory.ready(addr + u64::from(bytes.len()) - 1)?;
    memory.store(&Piece { addr, bytes }, writer);
    Ok(())
}

/// What a load at a message sees.
fn load(memory: &Memory, image: &Image, addr: u64, len: u8, message: u32) -> Result<Capture, Fail> {
    let extent = Extent::new(addr, len).ok_or("no extent")?;
    Ok(Capture::take(memory, image, &extent, place(message, message)))
}

/// The last writer of each byte.
fn names(writers: &[Option<Writer>; 8]) -> [Option<Name>; 8] {
    writers.map(|writer| writer.map(|w| (w.hart, w.tag)))
}

#[test]
fn a_load_sees_what_was_written_before_it(rt: HostRuntime) -> Result<(), Fail> {
    let image = image(rt.alloc())?;
    let mut memory = Memory::new(rt.alloc());
    store(&mut memory, Y, &[1, 0, 0, 0], &writer((0, 2), 13, 12))?;

    let seen = load(&memory, &image, Y, 4, 14)?;
    assert_eq!(rt; seen.place, place(14, 14));
    assert_eq!(rt; seen.base, Y);
    assert_eq!(rt; seen.values, [1, 0, 0, 0, 0, 0, 0, 0]);
    let h0 = Some((0, 2));
    assert_eq!(rt; names(&seen.last), [h0, h0, h0, h0, None, None, None, None]);

    let seen = load(&memory, &image, X, 4, 15)?;
    store(&mut memory, X, &[1, 0, 0, 0], &writer((0, 1), 19, 18))?;
    assert_eq!(rt; seen.values, [0; 8]);
    assert_eq!(rt; names(&seen.last), [None; 8]);

    let code = load(&memory, &image, 0x8000_0000, 4, 16)?;
    assert_eq!(rt; code.values, [0x93, 0, 0x50, 0, 0, 0, 0, 0]);
    Ok(())
}

#[test]
fn a_later_load_sees_a_store_that_an_earlier_one_missed(rt: HostRuntime) -> Result<(), Fail> {
    let image = image(rt.alloc())?;
    let mut memory = Memory::new(rt.alloc());
    let early = load(&memory, &image, X, 4, 10)?;
    store(&mut memory, X, &[1, 0, 0, 0], &writer((0, 1), 13, 12))?;
    let late = load(&memory, &image, X, 4, 14)?;
    assert_eq!(rt; (early.values[0], early.last[0]), (0, None));
    assert_eq!(rt;
        (late.values[0], late.last[0]),
        (1, Some(writer((0, 1), 13, 12)))
    );
    Ok(())
}

#[test]
fn a_conditional_store_sees_the_other_hart_behind_its_own(rt: HostRuntime) -> Result<(), Fail> {
    let image = image(rt.alloc())?;
    let mut memory = Memory::new(rt.alloc());
    let one = [1, 0, 0, 0, 0, 0, 0, 0];
    store(&mut memory, X, &one, &writer((1, 1), 12, 12))?;
    store(&mut memory, X, &one, &writer((0, 2), 15, 15))?;

    let extent = Extent::new(X, 4).ok_or("no extent")?;
    let seen = StoreCapture::take(&memory, &image, &extent, place(16, 16), 0, 8);
    assert_eq!(rt; names(&seen.seen.last), [Some((0, 2)); 8]);
    assert_eq!(rt; names(&seen.other), [Some((1, 1)); 8]);
    let foreign = Foreign {
        at: X,
        writer: writer((1, 1), 12, 12),
    };
    assert_eq!(rt; seen.foreign, Some(foreign));
    let none = StoreCapture::take(&memory, &image, &extent, place(16, 16), 0, 0);
    assert_eq!(rt; none.foreign, None);

    let cell = memory.at(&image, X);
    assert_eq!(rt;
        (cell.value, cell.last, cell.other),
        (
            1,
            Some(writer((0, 2), 15, 15)),
            Some(writer((1, 1), 12, 12))
        )
    );
    Ok(())
}

#[test]
fn the_later_insert_of_a_write_is_what_stays(rt: HostRuntime) -> Result<(), Fail> {
    let image = image(rt.alloc())?;
    let mut memory = Memory::new(rt.alloc());
    store(
        &mut memory,
        X,
        &[0x40, 0x10, 0, 0x80],
        &writer((0, 2), 10, 8),
    )?;
    store(&mut memory, X, &[1, 0, 0, 0], &writer((0, 1), 10, 9))?;
    let seen = load(&memory, &image, X, 4, 11)?;
    assert_eq!(rt; seen.values, [1, 0, 0, 0, 0, 0, 0, 0]);
    assert_eq!(rt; seen.last[0], Some(writer((0, 1), 10, 9)));
    assert_eq!(rt; memory.at(&image, X).other, None);
    Ok(())
}

#[test]
fn an_access_may_cross_a_line(rt: HostRuntime) -> Result<(), Fail> {
    let image = image(rt.alloc())?;
    let mut memory = Memory::new(rt.alloc());
    store(
        &mut memory,
        0x8000_103c,
        &[1, 2, 3, 4, 5, 6, 7, 8],
        &writer((1, 1), 13, 13),
    )?;
    let seen = load(&memory, &image, 0x8000_103e, 6, 14)?;
    assert_eq!(rt; seen.base, 0x8000_103e);
    assert_eq!(rt; seen.values, [3, 4, 5, 6, 7, 8, 0, 0]);
    let h1 = Some((1, 1));
    assert_eq!(rt; names(&seen.last), [h1, h1, h1, h1, h1, h1, None, None]);
    memory.look(Y);
    assert_eq!(rt;
        load(&memory, &image, Y, 4, 15)?.values,
        [5, 6, 7, 8, 0, 0, 0, 0]
    );
    Ok(())
}
