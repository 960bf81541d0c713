//! Lines of each kind, and texts that are near to one. The columns are counted by hand.

use std::test::Fail;
use tandem_io::MemSink;
use trace_text::{TextFault, from_text, to_text};

const ALL_KINDS: &str = "open time=0 version=1 harts=16 flags=3 granule=0 skew=0
poke hart=15 time=0 reg=pc value=0x80000004
poke hart=0 time=0 reg=x31 value=0xffffffffffffffff
poke hart=0 time=0 reg=0x300 value=0x0
read hart=0 time=1 tag=18446744073709551615 addr=0x5 bytes=00
insert hart=0 time=1 tag=0 addr=0xffffffffffffffff bytes=0123456789abcdef
write hart=255 time=2 line=0x40 mask=0x8000000000000001 bytes=\
0a00000000000000000000000000000000000000000000000000000000000000\
000000000000000000000000000000000000000000000000000000000000000b
bypass hart=0 time=3 tag=7 addr=0x0 bytes=ff
retire hart=0 time=1 tag=1 pc=0x80000000 word=0x500093 next=0x80000004 trap=- rd=x1:0x5 csrs=-
retire hart=0 time=1 tag=2 pc=0x0 word=0x0 next=0x0 trap=255 rd=- \
csrs=0x300:0x1800,0x341:0x80000000,0x342:0x7,0xffff:0x1
squash hart=0 time=1 tag=1
end time=18446744073709551615
";

#[test]
fn lines_of_each_kind_are_read_and_written(rt: HostRuntime) {
    let Ok(messages) = from_text(rt.alloc(), ALL_KINDS.as_bytes()) else {
        panic!(rt; "the text is refused");
    };
    assert_eq!(rt; messages.len(), 12);
    let Ok(mut sink) = MemSink::new(rt.alloc(), 2000, 7) else {
        panic!(rt; "no memory");
    };
    for k in 0..messages.len() {
        if let Some(message) = messages.get(k) {
            assert!(rt; to_text(message, &mut sink).is_ok());
        }
    }
    assert!(rt; sink.bytes() == ALL_KINDS.as_bytes());
}

#[test]
fn the_first_wrong_word_is_named(rt: HostRuntime) {
    for (text, line, column) in [
        ("\n", 1, 1),
        ("end time=2 x\n", 1, 12),
        ("end time=02\n", 1, 5),
        ("end time=2", 1, 11),
        ("end time=2x", 1, 5),
        ("end  time=2\n", 1, 5),
        ("end time=2 \n", 1, 12),
        (" end time=2\n", 1, 1),
        ("END time=2\n", 1, 1),
        ("end\n", 1, 4),
        ("end \n", 1, 5),
        ("end\ttime=2\n", 1, 1),
        ("end time=2\r\n", 1, 5),
        ("end time=2\0\n", 1, 5),
        ("end time=2\nend time=3\n\n", 3, 1),
        ("end time=2\nend time=x\nend\n", 2, 5),
        ("end time=18446744073709551616\n", 1, 5),
        ("end time=\n", 1, 5),
        ("end time=+2\n", 1, 5),
        ("end tim=2\n", 1, 5),
        ("squash hart=0 time=1 tag=1 tag=1\n", 1, 28),
        ("squash time=1 hart=0 tag=1\n", 1, 8),
        ("squash hart=256 time=1 tag=1\n", 1, 8),
        ("squash hart=0 time=1\n", 1, 21),
        ("poke hart=0 time=0 reg=pc value=0x5\n", 1, 27),
        ("poke hart=0 time=0 reg=x1 value=0x05\n", 1, 27),
        ("poke hart=0 time=0 reg=x1 value=0xA\n", 1, 27),
        ("poke hart=0 time=0 reg=x1 value=5\n", 1, 27),
        ("poke hart=0 time=0 reg=x0 value=0x5\n", 1, 20),
        ("poke hart=0 time=0 reg=x32 value=0x5\n", 1, 20),
        ("poke hart=0 time=0 reg=0x301 value=0x5\n", 1, 20),
        ("read hart=0 time=1 tag=1 addr=0x5 bytes=\n", 1, 35),
        ("read hart=0 time=1 tag=1 addr=0x5 bytes=0\n", 1, 35),
        ("read hart=0 time=1 tag=1 addr=0x5 bytes=0A\n", 1, 35),
        (
            "read hart=0 time=1 tag=1 addr=0x5 bytes=000102030405060708\n",
            1,
            35,
        ),
        ("write hart=0 time=1 line=0x41 mask=0x1 bytes=00\n", 1, 21),
        ("write hart=0 time=1 line=0x40 mask=0x1 bytes=00\n", 1, 40),
        (
            "open time=0 version=1 harts=17 flags=0 granule=0 skew=0\n",
            1,
            23,
        ),
        (
            "open time=0 version=1 harts=1 flags=4 granule=0 skew=0\n",
            1,
            31,
        ),
        (
            "retire hart=0 time=1 tag=1 pc=0x0 word=0x100000000 next=0x0 trap=- rd=- csrs=-\n",
            1,
            35,
        ),
        (
            "retire hart=0 time=1 tag=1 pc=0x0 word=0x0 next=0x0 trap=256 rd=- csrs=-\n",
            1,
            53,
        ),
        (
            "retire hart=0 time=1 tag=1 pc=0x0 word=0x0 next=0x0 trap=- rd=x0:0x5 csrs=-\n",
            1,
            60,
        ),
        (
            "retire hart=0 time=1 tag=1 pc=0x0 word=0x0 next=0x0 trap=- rd=- csrs=0x300:0x1,\n",
            1,
            65,
        ),
    ] {
        match from_text(rt.alloc(), text.as_bytes()) {
            Err(
                TextFault::Form {
                    line: named,
                    column: at,
                },
            ) => assert!(rt;
                named == line && at == column,
                "{text:?}: line {named}, column {at}"
            ),
            _ => panic!(rt; "{text:?} is read"),
        }
    }
}
