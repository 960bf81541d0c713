//! Files made here byte by byte: their images at each address, and their first faults.

mod linked;

use elf_image::{Image, ImageFault, Ram, TooLarge};
use std::alloc::{AllocError, Global};
use std::test::Fail;
use tandem_base::Extent;

/// RAM from the middle of a segment to past its end.
const OVER: Ram = Ram {
    base: 0x8000_0004,
    size: 0x20,
};

/// A file of three segments: "ABCDEFGH" and eight zeros at 0x80000000, the last eight bytes below
/// 2^64, and eight zeros at 0x80000010. Their headers begin at 64, 120 and 176, and their virtual
/// address is 0x1000.
const ELF: &[u8] = b"\
\x7fELF\x02\x01\x01\0\0\0\0\0\0\0\0\0\x02\0\xf3\0\x01\0\0\0\
\0\0\0\x80\0\0\0\0\x40\0\0\0\0\0\0\0\
\xff\xff\xff\xff\xff\xff\xff\xff\xff\xff\xff\xff\xff\xff\x38\0\x03\0\xff\xff\xff\xff\xff\xff\
\x01\0\0\0\xff\xff\xff\xff\xe8\0\0\0\0\0\0\0\0\x10\0\0\0\0\0\0\
\0\0\0\x80\0\0\0\0\x08\0\0\0\0\0\0\0\x10\0\0\0\0\0\0\0\0\0\0\0\0\0\0\0\
\x01\0\0\0\xff\xff\xff\xff\xff\xff\xff\xff\xff\xff\xff\xff\0\x10\0\0\0\0\0\0\
\xf8\xff\xff\xff\xff\xff\xff\xff\0\0\0\0\0\0\0\0\x08\0\0\0\0\0\0\0\0\0\0\0\0\0\0\0\
\x01\0\0\0\xff\xff\xff\xff\xff\xff\xff\xff\xff\xff\xff\xff\0\x10\0\0\0\0\0\0\
\x10\0\0\x80\0\0\0\0\0\0\0\0\0\0\0\0\x08\0\0\0\0\0\0\0\0\0\0\0\0\0\0\0\
ABCDEFGH";

/// Changes one byte, if it is there.
fn change(file: &mut [u8], at: usize, byte: u8) {
    if let Some(place) = file.get_mut(at) {
        *place = byte;
    }
}

/// The fault of that file with two bytes changed.
fn fault_with(
    alloc: Global,
    first: (usize, u8),
    second: (usize, u8),
) -> Result<Option<ImageFault>, AllocError> {
    let mut file = Vec::from_slice(alloc, ELF)?;
    change(&mut file, first.0, first.1);
    change(&mut file, second.0, second.1);
    Ok(Image::read_elf(alloc, &file, &[]).err())
}

/// What comes to 2^40 bytes and 32 more.
const SUM: ImageFault = ImageFault::TooLarge(TooLarge::Sum((1 << 40) + 32));

/// Two bytes changed, and the fault that the file then has.
type Change = ((usize, u8), (usize, u8), Option<ImageFault>);

const CHANGES: &[Change] = &[
    ((0, 0x7f), (0, 0x7f), None),
    ((3, 0x47), (4, 1), Some(ImageFault::NotElf)),
    ((4, 1), (16, 3), Some(ImageFault::Class)),
    ((5, 2), (0, 0x7f), Some(ImageFault::Class)),
    ((6, 0), (0, 0x7f), Some(ImageFault::Class)),
    ((16, 3), (18, 62), Some(ImageFault::Kind)),
    ((18, 62), (24, 2), Some(ImageFault::Machine)),
    ((24, 2), (54, 64), Some(ImageFault::Headers(24))),
    ((54, 64), (39, 0x80), Some(ImageFault::Headers(54))),
    ((32, 72), (0, 0x7f), None),
    ((32, 73), (0, 0x7f), Some(ImageFault::Headers(32))),
    ((39, 0x80), (56, 0), None),
    ((39, 0x80), (104, 7), Some(ImageFault::Headers(32))),
    ((72, 233), (144, 0xf9), Some(ImageFault::Segment(0))),
    ((72, 223), (96, 17), Some(ImageFault::Segment(0))),
    ((104, 8), (0, 0x7f), None),
    ((104, 7), (0, 0x7f), Some(ImageFault::Segment(0))),
    ((104, 7), (64, 4), None),
    ((144, 0xf9), (221, 1), Some(ImageFault::Segment(1))),
    ((221, 1), (200, 0x0f), Some(SUM)),
    ((200, 0x0f), (0, 0x7f), Some(ImageFault::Overlap(0, 2))),
    ((200, 0x04), (0, 0x7f), Some(ImageFault::Overlap(0, 2))),
];

#[test]
fn faults_of_elf_files(rt: HostRuntime) -> Result<(), Fail> {
    for (first, second, fault) in CHANGES {
        let found = fault_with(rt.alloc(), *first, *second)?;
        assert_eq!(rt; found, *fault, "with {first:?} and {second:?}");
    }
    let short = Image::read_elf(rt.alloc(), &ELF[..63], &[]).err();
    assert_eq!(rt; short, Some(ImageFault::NotElf));
    Ok(())
}

/// An address, and the byte and the word at it.
type Place = (u64, Option<u8>, Option<u32>);

const PLACES: &[Place] = &[
    (0x1000, None, None),
    (0x7fff_ffff, None, None),
    (0x8000_0000, Some(0x41), Some(0x4443_4241)),
    (0x8000_0006, Some(0x47), Some(0x4847)),
    (0x8000_0008, Some(0), Some(0)),
    (0x8000_0020, Some(0), Some(0)),
    (0x8000_0021, Some(0), None),
    (0x8000_0024, None, None),
    (u64::MAX - 3, Some(0), Some(0)),
    (u64::MAX - 2, Some(0), None),
];

/// The first address at which the image has another byte or word.
fn wrong_place(image: &Image, places: &[Place]) -> Option<u64> {
    for (addr, byte, word) in places {
        if image.byte(*addr) != *byte || image.word(*addr) != *word {
            return Some(*addr);
        }
    }
    None
}

/// An address, a length, and whether the image holds all these bytes.
const EXTENTS: &[(u64, u8, bool)] = &[
    (0x7fff_ffff, 1, false),
    (0x8000_000c, 8, true),
    (0x8000_001c, 8, true),
    (0x8000_001d, 8, false),
    (u64::MAX, 1, true),
];

/// Whether the image holds that extent, or else not, as is said.
fn holds_as_said(image: &Image, addr: u64, len: u8, held: bool) -> bool {
    let Some(extent) = Extent::new(addr, len) else {
        return false;
    };
    image.holds(&extent) == held
}

/// The first address of an extent of which the image says otherwise.
fn wrong_extent(image: &Image) -> Option<u64> {
    for (addr, len, held) in EXTENTS {
        if !holds_as_said(image, *addr, *len, *held) {
            return Some(*addr);
        }
    }
    None
}

#[test]
fn bytes_of_an_elf_file(rt: HostRuntime) -> Result<(), Fail> {
    let image = Image::read_elf(rt.alloc(), ELF, &[OVER]).map_err(|_| "no image")?;
    assert_eq!(rt; image.entry(), 0x8000_0000);
    assert_eq!(rt; wrong_place(&image, PLACES), None);
    assert_eq!(rt; wrong_extent(&image), None);
    Ok(())
}

/// The bytes and words of the flat file "abcdef" at 0x1000 with that RAM.
const FLAT: &[Place] = &[
    (0xfff, None, None),
    (0x1000, Some(0x61), Some(0x6463_6261)),
    (0x1002, Some(0x63), Some(0x6665_6463)),
    (0x1003, Some(0x64), None),
    (0x1006, None, None),
    (0x8000_0004, Some(0), Some(0)),
];

#[test]
fn bytes_of_a_flat_file(rt: HostRuntime) -> Result<(), Fail> {
    let image = Image::flat(rt.alloc(), b"abcdef", 0x1000, &[OVER; 63]).map_err(|_| "no image")?;
    assert_eq!(rt; image.entry(), 0x1000);
    assert_eq!(rt; wrong_place(&image, FLAT), None);
    Ok(())
}

#[test]
fn faults_of_flat_files(rt: HostRuntime) {
    let ranges = Some(ImageFault::TooLarge(TooLarge::Ranges(65)));
    assert_eq!(rt;
        Image::flat(rt.alloc(), b"abcdef", 0x1000, &[OVER; 64]).err(),
        ranges
    );
    assert_eq!(rt;
        Image::flat(rt.alloc(), b"", 0x1000, &[OVER; 64]).err(),
        None
    );
    assert_eq!(rt;
        Image::flat(rt.alloc(), b"abcd", u64::MAX - 3, &[]).err(),
        None
    );
    assert_eq!(rt;
        Image::flat(rt.alloc(), b"abcde", u64::MAX - 3, &[OVER; 65]).err(),
        Some(ImageFault::Segment(0))
    );
}
