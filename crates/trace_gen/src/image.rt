//! The program that every hart runs, and the image that holds it.

ghost use Rattle.std.specs.Prelude.{◌≡◌, ◌<◌, ◌%◌, IfOk, slice_index};
ghost use Rattle.elf_image.specs.Images.{loaded_of};
ghost use Rattle.trace_gen.specs.Program.{made_image, own_addr, pc_of, program_bytes, word_of};

use elf_image::{Image, ImageFault, Ram};
use std::alloc::{AllocError, Global};

// Where the program begins.
const PROGRAM_BASE: u64 = 0x8000_0000;

/// Where RAM begins, and the counter that all harts share.
pub const COUNTER_ADDR: u64 = 0x8000_1000;

// How many bytes of RAM there are.
const RAM_SIZE: u64 = 0x2000;

// The words of the program.
const PROGRAM: [u32; 7] = [
    0x0005_3283, // ld x5,0(x10)
    0x0055_b023, // sd x5,0(x11)
    0x0005_a483, // lw x9,0(x11)
    0x00c5_332f, // amoadd.d x6,x12,(x10)
    0x0330_000f, // fence rw,rw
    0x0005_b403, // ld x8,0(x11)
    0xfe9f_f06f, // jal x0,-24
];

/// Where a hart has a number of its own, on a line of its own.
pub fn own_addr(hart: u8) -> u64
    ensures { result ≡ own_addr hart }
{
    0x8000_2000 + 64 * u64::from(hart)
}

/// The address of instruction `k` of the program, from 0.
pub fn pc_of(k: u8) -> u64
    ensures { result ≡ pc_of k }
{
    PROGRAM_BASE + 4 * u64::from(k)
}

/// Its word.
pub fn word_of(k: u8) -> u32
    requires { k < 7 }
    ensures { result ≡ word_of k }
{
    PROGRAM[k as usize]
}

/// The image: the program, and RAM.
pub fn made_image(alloc: Global) -> Result<Image, AllocError>
    ensures { IfOk result (λ image. loaded_of image ≡ made_image) }
{
    let ram = Ram {
        base: COUNTER_ADDR,
        size: RAM_SIZE,
    };
    let bytes = program_bytes(alloc)?;
    match Image::flat(alloc, &bytes, PROGRAM_BASE, &[ram]) {
        Ok(image) => Ok(image),
        Err(ImageFault::Memory) => Err(AllocError),
        Err(_) => unreachable!(),
    }
}

// The bytes of the program, as of a flat file.
fn program_bytes(alloc: Global) -> Result<Vec<u8>, AllocError>
    ensures { IfOk result (λ bytes. bytes.items ≡ program_bytes) }
{
    let mut bytes = Vec::new(alloc);
    for word in &PROGRAM {
        bytes.extend_from_slice(&word.to_le_bytes())?;
    }
    Ok(bytes)
}
