//! Texts that are spellings and texts that are near to one.

use super::{read_decimal, read_hexadecimal};
use std::test::Fail;

#[test]
fn only_the_one_spelling_is_read(rt: HostRuntime) {
    for (text, most, want) in [
        ("0", 0, Some(0)),
        ("18446744073709551615", u64::MAX, Some(u64::MAX)),
        ("255", 255, Some(255)),
        ("256", 255, None),
        ("18446744073709551616", u64::MAX, None),
        ("", u64::MAX, None),
        ("00", u64::MAX, None),
        ("07", u64::MAX, None),
        ("+7", u64::MAX, None),
        ("7 ", u64::MAX, None),
        ("a", u64::MAX, None),
    ] {
        assert!(rt;
            read_decimal(text.as_bytes(), most) == want,
            "decimal {text}"
        );
    }
    for (text, most, want) in [
        ("0x0", 0, Some(0)),
        ("0x80000abc", u64::MAX, Some(0x80000abc)),
        ("0xffffffffffffffff", u64::MAX, Some(u64::MAX)),
        ("0xff", 255, Some(255)),
        ("0x100", 255, None),
        ("0x10000000000000000", u64::MAX, None),
        ("0x", u64::MAX, None),
        ("7", u64::MAX, None),
        ("0X7", u64::MAX, None),
        ("0x07", u64::MAX, None),
        ("0xA", u64::MAX, None),
        ("0xg", u64::MAX, None),
    ] {
        assert!(rt;
            read_hexadecimal(text.as_bytes(), most) == want,
            "hexadecimal {text}"
        );
    }
}
