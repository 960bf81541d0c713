//! Inserts on two lines, and Writes of them: line 64 gets bytes 66 and 67, and then 64 to 66.

ghost use Rattle.std.specs.Prelude.{◌≡◌, ◌+◌, ◌%◌, ℕ, IfOk};
ghost use Rattle.merge_buffer.specs.Parts.{AllBelow};
ghost use Rattle.merge_buffer.specs.Buffers.{waiting_on};

use merge_buffer::{Difference, Drain, Lines};
use msg_frames::{LineWrite, Piece};
use std::alloc::{AllocError, Global};
use std::test::Fail;
use tandem_base::{Bytes8, Took};

/// A buffer that takes Inserts from message 1 on.
fn empty(alloc: Global, capacity: u32) -> Result<Lines, AllocError>
    ensures { IfOk result (λ buffer. (line : ℕ) → AllBelow 1 (waiting_on buffer line)) }
{
    Lines::new(alloc, capacity)
}

/// An Insert at a message after all others, with a tag that is ten more. None where it isn't one to eight
/// bytes of one line.
fn insert(buffer: &mut Lines, addr: u64, value: &[u8], number: u32) -> Option<Took>
    requires { (line : ℕ) → AllBelow number (waiting_on buffer.old line) }
    ensures { (line : ℕ) → AllBelow (number + 1) (waiting_on buffer.new line) }
{
    let bytes = Bytes8::new(value)?;
    if addr % 64 + u64::from(bytes.len()) > 64 {
        return None;
    }
    Some(buffer.insert(u64::from(number) + 10, &Piece { addr, bytes }, number))
}

/// A buffer with room for four, in which three Inserts wait.
fn three_inserts(alloc: Global) -> Result<Lines, AllocError> {
    let mut buffer = empty(alloc, 4)?;
    insert(&mut buffer, 66, &[1, 2], 1);
    insert(&mut buffer, 128, &[9], 2);
    insert(&mut buffer, 64, &[3, 4, 5], 3);
    Ok(buffer)
}

/// A Write that reports these eight bytes at the start of its line, and 0 after them.
fn reported(line: u64, mask: u64, low: u64) -> LineWrite
    ensures { result.line ≡ line }
{
    let mut bytes = [0; 64];
    bytes[..8].copy_from_slice(&low.to_le_bytes());
    LineWrite { line, mask, bytes }
}

/// The answer to a Write of a line.
fn write(buffer: &mut Lines, line: u64, mask: u64, low: u64) -> Drain
    requires { line % 64 ≡ 0 }
{
    buffer.write(&reported(line, mask, low))
}

/// The tag and the message of a part that was drained.
fn drained(buffer: &Lines, k: u32) -> Option<(u64, u32)> {
    buffer.part(k).map(|part| (part.tag, part.number))
}

/// Whether a Write of line 64 is refused at this byte, and leaves all that waits.
fn differs(buffer: &mut Lines, mask: u64, low: u64, difference: Difference) -> bool {
    write(buffer, 64, mask, low) == Drain::Mismatch(difference) && buffer.count() == 3
}

#[test]
fn a_write_drains_all_that_waits_on_its_line(rt: HostRuntime) -> Result<(), Fail> {
    let mut buffer = three_inserts(rt.alloc())?;
    assert_eq!(rt; buffer.count(), 3);
    assert_eq!(rt; write(&mut buffer, 64, 0xf, 0x0205_0403), Drain::Parts(2));
    assert_eq!(rt;
        (drained(&buffer, 0), drained(&buffer, 1)),
        (Some((11, 1)), Some((13, 3)))
    );
    assert_eq!(rt; (drained(&buffer, 2), buffer.count()), (None, 1));
    assert_eq!(rt; write(&mut buffer, 128, 1, 9), Drain::Parts(1));
    assert_eq!(rt; (drained(&buffer, 0), buffer.count()), (Some((12, 2)), 0));
    assert_eq!(rt; write(&mut buffer, 64, 0, 0), Drain::Parts(0));
    Ok(())
}

#[test]
fn a_write_names_the_lowest_byte_that_differs(rt: HostRuntime) -> Result<(), Fail> {
    let mut buffer = three_inserts(rt.alloc())?;
    let at_66 = Difference {
        at: 66,
        want: Some(5),
        got: Some(1),
    };
    assert!(rt; differs(&mut buffer, 0xf, 0x0201_0403, at_66));
    let at_65 = Difference {
        at: 65,
        want: Some(4),
        got: Some(0),
    };
    assert!(rt; differs(&mut buffer, 0xf, 0x0201_0003, at_65));
    let at_67 = Difference {
        at: 67,
        want: Some(2),
        got: None,
    };
    assert!(rt; differs(&mut buffer, 7, 0x0005_0403, at_67));
    let at_68 = Difference {
        at: 68,
        want: None,
        got: Some(0),
    };
    assert!(rt; differs(&mut buffer, 0x1f, 0x0205_0403, at_68));
    Ok(())
}

#[test]
fn a_full_buffer_takes_no_more(rt: HostRuntime) -> Result<(), Fail> {
    let mut buffer = empty(rt.alloc(), 2)?;
    assert_eq!(rt; insert(&mut buffer, 64, &[1], 1), Some(Took::Yes));
    assert_eq!(rt; insert(&mut buffer, 0, &[2], 2), Some(Took::Yes));
    assert_eq!(rt; insert(&mut buffer, 64, &[3], 3), Some(Took::Full(2)));
    assert_eq!(rt; buffer.count(), 2);
    Ok(())
}
