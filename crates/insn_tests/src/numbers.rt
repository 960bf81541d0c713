//! What no clause says: results at the ends of the ranges, worked out with whole numbers of any size.

use std::cmp::Ordering;
use tandem_base::{
    Bytes8, Extent, Place, Position, csrs, div, div32, divu, divu32, mulh, mulhsu, mulhu,
    places_are_ordered, positions_are_ordered_as_places, put, rem, rem32, remu, remu32, sext,
    u16_at, u32_at, u64_at,
};

/// Whether the lowest bits of a value are extended to this.
fn extends(value: u64, bits: u8, want: u64) -> bool {
    1 <= bits && bits <= 64 && sext(value, bits) == want
}

#[test]
fn extends_signs(rt: HostRuntime) {
    for (value, bits, want) in [
        (0, 1, 0),
        (1, 1, 0xffff_ffff_ffff_ffff),
        (0x7f, 8, 0x7f),
        (0x80, 8, 0xffff_ffff_ffff_ff80),
        (0x1ff, 8, 0xffff_ffff_ffff_ffff),
        (0x7ff, 12, 0x7ff),
        (0x800, 12, 0xffff_ffff_ffff_f800),
        (0x7fff_ffff, 32, 0x7fff_ffff),
        (0x8000_0000, 32, 0xffff_ffff_8000_0000),
        (0xffff_ffff_0000_0000, 32, 0),
        (0x4000_0000_0000_0000, 63, 0xc000_0000_0000_0000),
        (0x8000_0000_0000_0000, 64, 0x8000_0000_0000_0000),
        (0xffff_ffff_ffff_ffff, 64, 0xffff_ffff_ffff_ffff),
    ] {
        assert!(rt; extends(value, bits, want), "at {value} {bits}");
    }
}

/// Whether the high halves of the products are these: of signed numbers, of a signed and an
/// unsigned one, and of unsigned numbers.
fn multiplies(a: u64, b: u64, high: [u64; 3]) -> bool {
    [mulh(a, b), mulhsu(a, b), mulhu(a, b)] == high
}

#[test]
fn multiplies_high_halves(rt: HostRuntime) {
    for (a, b, high) in [
        (3, 5, [0, 0, 0]),
        (u64::MAX, 1, [u64::MAX, u64::MAX, 0]),
        (1, u64::MAX, [u64::MAX, 0, 0]),
        (u64::MAX, u64::MAX, [0, u64::MAX, u64::MAX - 1]),
        (1 << 63, 1 << 63, [1 << 62, 0xc000_0000_0000_0000, 1 << 62]),
        (1 << 63, u64::MAX, [0, 1 << 63, 0x7fff_ffff_ffff_ffff]),
        (u64::MAX, 1 << 63, [0, u64::MAX, 0x7fff_ffff_ffff_ffff]),
        (
            0x7fff_ffff_ffff_ffff,
            u64::MAX,
            [u64::MAX, 0x7fff_ffff_ffff_fffe, 0x7fff_ffff_ffff_fffe],
        ),
    ] {
        assert!(rt; multiplies(a, b, high), "at {a} {b}");
    }
}

/// Whether the quotients and remainders are these: the signed ones, and then the unsigned ones.
fn divides(a: u64, b: u64, want: [u64; 4]) -> bool {
    [div(a, b), rem(a, b), divu(a, b), remu(a, b)] == want
}

/// The same of 32 bits.
fn divides_words(a: u32, b: u32, want: [u32; 4]) -> bool {
    [div32(a, b), rem32(a, b), divu32(a, b), remu32(a, b)] == want
}

// Numbers with a sign are written as the patterns that stand for them.
fn minus(n: u64) -> u64 {
    n.wrapping_neg()
}

fn minus_word(n: u32) -> u32 {
    n.wrapping_neg()
}

// The same rows at both widths: a dividend, a divisor, the signed quotient and remainder, and the
// unsigned ones.
macro_rules! rows {
    ($minus:ident, $least:expr) => {
        [
            (7, 2, [3, 1, 3, 1]),
            ($minus(7), 2, [$minus(3), $minus(1), $least - 4, 1]),
            (7, $minus(2), [$minus(3), 1, 0, 7]),
            ($minus(7), $minus(2), [3, $minus(1), 0, $minus(7)]),
            (7, 0, [$minus(1), 7, $minus(1), 7]),
            ($minus(7), 0, [$minus(1), $minus(7), $minus(1), $minus(7)]),
            ($least, $minus(1), [$least, 0, 0, $least]),
            ($least, $least, [1, 0, 1, 0]),
            ($minus(1), $least, [0, $minus(1), 1, $least - 1]),
        ]
    };
}

#[test]
fn divides_64_bits(rt: HostRuntime) {
    for (a, b, want) in rows!(minus, (1u64 << 63)) {
        assert!(rt; divides(a, b, want), "at {a} {b}");
    }
}

#[test]
fn divides_32_bits(rt: HostRuntime) {
    for (a, b, want) in rows!(minus_word, (1u32 << 31)) {
        assert!(rt; divides_words(a, b, want), "at {a} {b}");
    }
}

/// Whether there is no extent of these bytes.
fn is_none(addr: u64, len: u8) -> bool {
    Extent::new(addr, len).is_none()
}

/// Whether the extent of these bytes starts and ends there, covers its ends and nothing beside
/// them, and is aligned or not.
fn covers(addr: u64, len: u8, last: u64, aligned: bool) -> bool {
    match Extent::new(addr, len) {
        Some(extent) => {
            extent.addr() == addr
                && extent.len() == len
                && extent.has(addr)
                && extent.has(last)
                && !extent.has(addr.wrapping_sub(1))
                && !extent.has(last.wrapping_add(1))
                && extent.aligned() == aligned
        }
        None => false,
    }
}

/// Whether the extents of these bytes share one or not, whichever is asked.
fn share(a: (u64, u8), b: (u64, u8), want: bool) -> bool {
    match (Extent::new(a.0, a.1), Extent::new(b.0, b.1)) {
        (Some(a), Some(b)) => a.overlaps(&b) == want && b.overlaps(&a) == want,
        _ => false,
    }
}

#[test]
fn covers_bytes_up_to_the_top(rt: HostRuntime) {
    assert!(rt; is_none(u64::MAX, 2) && is_none(u64::MAX - 6, 8));
    assert!(rt; is_none(0, 0) && is_none(0, 9));
    for (addr, len, last, aligned) in [
        (u64::MAX, 1, u64::MAX, true),
        (u64::MAX - 7, 8, u64::MAX, true),
        (u64::MAX - 4, 3, u64::MAX - 2, false),
        (0x8000_0002, 4, 0x8000_0005, false),
    ] {
        assert!(rt; covers(addr, len, last, aligned), "at {addr} {len}");
    }
}

#[test]
fn shares_bytes_up_to_the_top(rt: HostRuntime) {
    let top = (u64::MAX - 7, 8);
    let odd = (u64::MAX - 4, 3);
    for (a, b, want) in [
        ((u64::MAX, 1), top, true),
        (top, odd, true),
        ((u64::MAX - 8, 1), top, false),
        (odd, (u64::MAX, 1), false),
    ] {
        assert!(rt; share(a, b, want));
    }
}

/// Whether places of these times, messages and Inserts stand so to each other.
fn stands(a: (u64, u64, u64), b: (u64, u64, u64), want: Ordering) -> bool {
    let a = Place {
        time: a.0,
        message: a.1,
        insert: a.2,
    };
    let b = Place {
        time: b.0,
        message: b.1,
        insert: b.2,
    };
    a.cmp(&b) == want && a.is_before(&b) == (want == Ordering::Less)
}

/// Whether the positions of these messages and Inserts are in this order.
fn comes_first(a: (u32, u32), b: (u32, u32)) -> bool {
    let a = Position {
        message: a.0,
        insert: a.1,
    };
    let b = Position {
        message: b.0,
        insert: b.1,
    };
    a.is_before(&b) && !b.is_before(&a)
}

#[test]
fn orders_places(rt: HostRuntime) {
    for (a, b, want) in [
        ((1, 9, 9), (2, 0, 0), Ordering::Less),
        ((2, 1, 9), (2, 2, 0), Ordering::Less),
        ((2, 2, 1), (2, 2, 2), Ordering::Less),
        ((2, 2, 2), (2, 2, 2), Ordering::Equal),
        ((2, 2, 3), (2, 2, 2), Ordering::Greater),
    ] {
        assert!(rt; stands(a, b, want));
    }
    assert!(rt; comes_first((1, 9), (2, 0)) && comes_first((2, 1), (2, 2)));
    places_are_ordered();
    positions_are_ordered_as_places();
}

/// Whether the bytes are held, with this one the last, and are this number.
fn holds(bytes: &[u8], last: u8, number: u64) -> bool {
    match Bytes8::new(bytes) {
        Some(held) => {
            held.len() as usize == bytes.len()
                && held.byte(held.len() - 1) == last
                && held.as_slice() == bytes
                && held.number() == number
        }
        None => false,
    }
}

#[test]
fn holds_one_to_eight_bytes(rt: HostRuntime) {
    assert!(rt; Bytes8::new(&[]).is_none() && Bytes8::new(&[0; 9]).is_none());
    assert!(rt; holds(&[7], 7, 7));
    assert!(rt; holds(&[1, 2, 3, 4, 5, 6, 7, 8], 8, 0x0807_0605_0403_0201));
}

/// Whether a text is put into the middle of a buffer, and nothing else of it changes.
fn puts_amid() -> bool {
    let mut out = *b"0123456789";
    put(&mut out, 3, b"abc") == 6 && out == *b"012abc6789"
}

/// Whether the numbers of two, four and eight bytes are read at their offset.
fn reads_fields(bytes: &[u8; 9]) -> bool {
    u16_at(1, bytes) == 0x0201
        && u32_at(1, bytes) == 0x0403_0201
        && u64_at(1, bytes) == 0x0807_0605_0403_0201
}

#[test]
fn puts_a_text_and_names_csrs(rt: HostRuntime) {
    assert!(rt; puts_amid() && reads_fields(&[9, 1, 2, 3, 4, 5, 6, 7, 8]));
    csrs::csrs_have_their_numbers();
    assert!(rt; csrs::MTVAL == 0x343 && csrs::MHARTID == 0xf14);
}
