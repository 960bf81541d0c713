//! A file as a linker makes it: notes, attributes and the stack's flags stand between the segments
//! to be loaded, and sections follow.

use super::{Place, wrong_place};
use elf_image::Image;
use std::alloc::{AllocError, Global};
use std::test::Fail;

struct Program {
    kind: u32,
    flags: u32,
    offset: u64,
    address: u64,
    file_size: u64,
    size: u64,
    align: u64,
}

struct Section {
    name: u32,
    kind: u32,
    flags: u64,
    address: u64,
    offset: u64,
    size: u64,
    align: u64,
}

/// e_ident, e_type, e_machine and e_version.
const START: &[u8] = b"\x7fELF\x02\x01\x01\0\0\0\0\0\0\0\0\0\x02\0\xf3\0\x01\0\0\0";

/// e_entry, e_phoff and e_shoff.
const PLACES: &[u64] = &[0x8000_0000, 64, 0x11e0];

/// e_flags, the ABI with floating-point registers for doubles.
const FLAGS: u32 = 4;

/// e_ehsize, e_phentsize, e_phnum, e_shentsize, e_shnum and e_shstrndx.
const SIZES: &[u16] = &[64, 56, 5, 64, 7, 6];

const PROGRAMS: &[Program] = &[
    // PT_RISCV_ATTRIBUTES
    Program {
        kind: 0x7000_0003,
        flags: 4,
        offset: 0x116c,
        address: 0,
        file_size: 0x37,
        size: 0,
        align: 1,
    },
    // PT_LOAD, to be read and executed
    Program {
        kind: 1,
        flags: 5,
        offset: 0x1000,
        address: 0x8000_0000,
        file_size: 28,
        size: 28,
        align: 0x1000,
    },
    // PT_LOAD, to be read and written
    Program {
        kind: 1,
        flags: 6,
        offset: 0x101c,
        address: 0x8000_101c,
        file_size: 8,
        size: 36,
        align: 0x1000,
    },
    // PT_NOTE
    Program {
        kind: 4,
        flags: 4,
        offset: 0x1158,
        address: 0x1_0158,
        file_size: 20,
        size: 20,
        align: 1,
    },
    // PT_GNU_STACK
    Program {
        kind: 0x6474_e551,
        flags: 6,
        offset: 0,
        address: 0,
        file_size: 0,
        size: 0,
        align: 8,
    },
];

/// auipc x10,1; addi x10,x10,28; lw x11,0(x10); auipc x12,1; addi x12,x12,28; sw x11,0(x12); and a
/// jump to itself.
const TEXT: &[u32] = &[
    0x1517,
    0x01c5_0513,
    0x0005_2583,
    0x1617,
    0x01c6_0613,
    0x00b6_2023,
    0x6f,
];

const DATA: &[u32] = &[0x1234_5678, 7];

const NOTE: &[u8] = b"\x04\0\0\0\x04\0\0\0\x01\0\0\0abc\0\xaa\x55\xaa\x55";

const ATTRIBUTES: &[u8] =
    b"A\x36\0\0\0riscv\0\x01\x2c\0\0\0\x05rv64i2p0_m2p0_a2p0_f2p0_d2p0_zmmul1p0\0";

const NAMES: &[u8] = b"\0.shstrtab\0.note.tandem\0.text\0.data\0.bss\0.riscv.attributes\0";

const SECTIONS: &[Section] = &[
    Section {
        name: 0,
        kind: 0,
        flags: 0,
        address: 0,
        offset: 0,
        size: 0,
        align: 0,
    },
    // .note.tandem
    Section {
        name: 11,
        kind: 7,
        flags: 2,
        address: 0x1_0158,
        offset: 0x1158,
        size: 20,
        align: 1,
    },
    // .text
    Section {
        name: 24,
        kind: 1,
        flags: 6,
        address: 0x8000_0000,
        offset: 0x1000,
        size: 28,
        align: 4,
    },
    // .data
    Section {
        name: 30,
        kind: 1,
        flags: 3,
        address: 0x8000_101c,
        offset: 0x101c,
        size: 8,
        align: 1,
    },
    // .bss
    Section {
        name: 36,
        kind: 8,
        flags: 3,
        address: 0x8000_1028,
        offset: 0x1024,
        size: 24,
        align: 8,
    },
    // .riscv.attributes
    Section {
        name: 41,
        kind: 0x7000_0003,
        flags: 0,
        address: 0,
        offset: 0x116c,
        size: 0x37,
        align: 1,
    },
    // .shstrtab
    Section {
        name: 1,
        kind: 3,
        flags: 0,
        address: 0,
        offset: 0x11a3,
        size: 0x3b,
        align: 1,
    },
];

/// Writes the bytes at an offset of the file, if they fit.
fn write(file: &mut [u8], at: usize, bytes: &[u8]) {
    if let Some(part) = file.get_mut(at..at.saturating_add(bytes.len())) {
        part.copy_from_slice(bytes);
    }
}

fn write_halves(file: &mut [u8], at: usize, halves: &[u16]) {
    let mut next = at;
    for half in halves {
        write(file, next, &half.to_le_bytes());
        next = next.saturating_add(2);
    }
}

fn write_words(file: &mut [u8], at: usize, words: &[u32]) {
    let mut next = at;
    for word in words {
        write(file, next, &word.to_le_bytes());
        next = next.saturating_add(4);
    }
}

fn write_fields(file: &mut [u8], at: usize, fields: &[u64]) {
    let mut next = at;
    for field in fields {
        write(file, next, &field.to_le_bytes());
        next = next.saturating_add(8);
    }
}

fn write_program(file: &mut [u8], at: usize, program: &Program) {
    write_words(file, at, &[program.kind, program.flags]);
    write_fields(
        file,
        at.saturating_add(8),
        &[
            program.offset,
            program.address,
            program.address,
            program.file_size,
            program.size,
            program.align,
        ],
    );
}

fn write_section(file: &mut [u8], at: usize, section: &Section) {
    write_words(file, at, &[section.name, section.kind]);
    write_fields(
        file,
        at.saturating_add(8),
        &[
            section.flags,
            section.address,
            section.offset,
            section.size,
            0,
            section.align,
            0,
        ],
    );
}

fn write_programs(file: &mut [u8], at: usize) {
    let mut next = at;
    for program in PROGRAMS {
        write_program(file, next, program);
        next = next.saturating_add(56);
    }
}

fn write_sections(file: &mut [u8], at: usize) {
    let mut next = at;
    for section in SECTIONS {
        write_section(file, next, section);
        next = next.saturating_add(64);
    }
}

fn write_header(file: &mut [u8]) {
    write(file, 0, START);
    write_fields(file, 24, PLACES);
    write_words(file, 48, &[FLAGS]);
    write_halves(file, 52, SIZES);
}

fn write_contents(file: &mut [u8]) {
    write_words(file, 0x1000, TEXT);
    write_words(file, 0x101c, DATA);
    write(file, 0x1158, NOTE);
    write(file, 0x116c, ATTRIBUTES);
    write(file, 0x11a3, NAMES);
}

fn linked(alloc: Global) -> Result<Vec<u8>, AllocError> {
    let mut file = Vec::new(alloc);
    file.resize(5024, 0)?;
    write_header(&mut file);
    write_programs(&mut file, 64);
    write_contents(&mut file);
    write_sections(&mut file, 0x11e0);
    Ok(file)
}

/// What is loaded and what isn't.
const LOADED: &[Place] = &[
    (0x8000_0000, Some(0x17), Some(0x1517)),
    (0x8000_0004, Some(0x13), Some(0x01c5_0513)),
    (0x8000_0008, Some(0x83), Some(0x0005_2583)),
    (0x8000_000c, Some(0x17), Some(0x1617)),
    (0x8000_0010, Some(0x13), Some(0x01c6_0613)),
    (0x8000_0014, Some(0x23), Some(0x00b6_2023)),
    (0x8000_0018, Some(0x6f), Some(0x6f)),
    (0x8000_0019, Some(0), None),
    (0x8000_101c, Some(0x78), Some(0x1234_5678)),
    (0x8000_1020, Some(7), Some(7)),
    (0x8000_1023, Some(0), Some(0)),
    (0x8000_103c, Some(0), Some(0)),
    (0x8000_103d, Some(0), None),
    (0, None, None),
    (0x1000, None, None),
    (0x116c, None, None),
    (0x1_0158, None, None),
    (0x1_016b, None, None),
    (0x7fff_ffff, None, None),
    (0x8000_001c, None, None),
    (0x8000_101b, None, None),
    (0x8000_1040, None, None),
    (0x8000_1158, None, None),
];

/// The first address of .bss at which the image has no zero.
fn wrong_zero(image: &Image) -> Option<u64> {
    for addr in 0x8000_1024..0x8000_1040 {
        if image.byte(addr) != Some(0) {
            return Some(addr);
        }
    }
    None
}

#[test]
fn loads_the_segments_of_a_linked_file(rt: HostRuntime) -> Result<(), Fail> {
    let file = linked(rt.alloc())?;
    let image = Image::read_elf(rt.alloc(), &file, &[]).map_err(|_| "no image")?;
    assert_eq!(rt; image.entry(), 0x8000_0000);
    assert_eq!(rt; wrong_place(&image, LOADED), None);
    assert_eq!(rt; wrong_zero(&image), None);
    Ok(())
}
