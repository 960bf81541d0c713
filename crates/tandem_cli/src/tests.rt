//! What words ask for, and the lines of outcomes.

use super::chosen::CheckOptions;
use super::file_fault::FileFault;
use super::outcome_lines::{print_failed, print_image_fault, print_missing, print_usage};
use super::words::parse;
use elf_image::TooLarge;
use std::alloc::{AllocError, Global};
use std::test::Fail;
use tandem_io::{Failed, MemSink};

/// The words of the text, which single spaces part.
fn words_of(alloc: Global, text: &str) -> Result<Vec<String>, AllocError> {
    let mut words = Vec::new(alloc);
    for word in text.split(' ') {
        words.push(String::from_str(alloc, word)?)?;
    }
    Ok(words)
}

/// The options as a text: the base of a flat image, the ranges of RAM, and the limits.
fn shown(alloc: Global, options: &CheckOptions) -> Result<String, AllocError> {
    let most = options.limits;
    let mut text = format!(in alloc; "{:?}", options.flat)?;
    for ram in &options.rams {
        let range = format!(in alloc; " {:x}:{:x}", ram.base, ram.size)?;
        text.push_str(range.as_str())?;
    }
    let limits = format!(in alloc;
        " {},{},{},{}",
        most.reads, most.stores, most.kept, most.messages
    )?;
    text.push_str(limits.as_str())?;
    Ok(text)
}

/// Whether these words of `check` ask for the image `i`, the stream `s` and these options.
fn asks(alloc: Global, words: &str, options: &str) -> Result<bool, AllocError> {
    let words = words_of(alloc, words)?;
    match parse(alloc, &words)? {
        Some(asked) => {
            let shown = shown(alloc, &asked.options)?;
            Ok(asked.image == "i" && asked.stream == "s" && shown.as_str() == options)
        }
        None => Ok(false),
    }
}

/// Words of `check`, and the options that they ask for.
const ASKED: [(&str, &str); 8] = [
    ("check i s", "None 4096,4096,16384,4000000000"),
    (
        "check i s --flat 0x80000000 --ram 0x80001000:0x1000",
        "Some(2147483648) 80001000:1000 4096,4096,16384,4000000000",
    ),
    (
        "check i s --ram 2147487744:4096 --ram 0x80001000:0x1000",
        "None 80001000:1000 80001000:1000 4096,4096,16384,4000000000",
    ),
    ("check i s --limits 1,2,3,4 --flat 0004", "Some(4) 1,2,3,4"),
    (
        "check i s --ram 0xffffffffffffffff:1 --ram 1:0xFFFFffffFFFFffff",
        "None ffffffffffffffff:1 1:ffffffffffffffff 4096,4096,16384,4000000000",
    ),
    (
        "check i s --flat 0x00000000000000Fc --limits 4096,0x1000,16384,4000000000",
        "Some(252) 4096,4096,16384,4000000000",
    ),
    (
        "check i s --flat 00000000000000000000018446744073709551612",
        "Some(18446744073709551612) 4096,4096,16384,4000000000",
    ),
    (
        "check i s --limits 4095,2,16383,3999999999",
        "None 4095,2,16383,3999999999",
    ),
];

#[test]
fn takes_options(rt: HostRuntime) -> Result<(), Fail> {
    for (words, options) in ASKED {
        assert!(rt; asks(rt.alloc(), words, options)?, "{words}");
    }
    Ok(())
}

/// Whether words with longer names are taken as they are.
fn takes_their_names(alloc: Global) -> Result<bool, AllocError> {
    let words = words_of(alloc, "check image.elf 0x --ram 16:1")?;
    match parse(alloc, &words)? {
        Some(asked) => Ok(asked.image == "image.elf" && asked.stream == "0x"),
        None => Ok(false),
    }
}

#[test]
fn takes_names(rt: HostRuntime) -> Result<(), Fail> {
    assert!(rt; takes_their_names(rt.alloc())?);
    Ok(())
}

/// Whether the fault's line is this one.
fn tells(alloc: Global, fault: &FileFault, line: &str) -> Result<bool, AllocError> {
    let mut out = MemSink::new(alloc, 99, 9)?;
    let printed = print_image_fault(fault, &mut out);
    Ok(printed.is_ok() && out.bytes() == line.as_bytes())
}

/// Faults of image files, and their lines.
const LINES: [(FileFault, &str); 10] = [
    (FileFault::NotElf, "IMAGE 1 NotElf\n"),
    (FileFault::Class, "IMAGE 2 Class\n"),
    (FileFault::Kind, "IMAGE 3 Kind\n"),
    (FileFault::Machine, "IMAGE 4 Machine\n"),
    (FileFault::Headers(54), "IMAGE 5 Headers 54\n"),
    (FileFault::Segment(65535), "IMAGE 6 Segment 65535\n"),
    (FileFault::Overlap(0, 12), "IMAGE 7 Overlap 0 12\n"),
    (
        FileFault::TooLarge(TooLarge::File(268_435_457)),
        "IMAGE 8 TooLarge File 268435457\n",
    ),
    (
        FileFault::TooLarge(TooLarge::Ranges(65)),
        "IMAGE 8 TooLarge Ranges 65\n",
    ),
    (
        FileFault::TooLarge(TooLarge::Sum(u128::MAX)),
        "IMAGE 8 TooLarge Sum 340282366920938463463374607431768211455\n",
    ),
];

#[test]
fn prints_image_faults(rt: HostRuntime) -> Result<(), Fail> {
    for (fault, line) in &LINES {
        assert!(rt; tells(rt.alloc(), fault, line)?, "{line}");
    }
    Ok(())
}

/// Whether these lines are printed one behind the other.
fn prints_all(alloc: Global) -> Result<bool, AllocError> {
    let mut out = MemSink::new(alloc, 200, 5)?;
    let printed = print_usage(&mut out).is_ok()
        && print_missing("i", &mut out).is_ok()
        && print_failed("a b", &mut out).is_ok();
    let lines =
        "USAGE tandem check IMAGE STREAM [--flat BASE] [--ram BASE:SIZE]... [--limits R,S,K,M]\n\
         INPUT missing i\nINPUT failed a b\n";
    Ok(printed && out.bytes() == lines.as_bytes())
}

#[test]
fn prints_outcomes(rt: HostRuntime) -> Result<(), Fail> {
    assert!(rt; prints_all(rt.alloc())?);
    Ok(())
}

/// Whether just the front of a line is printed where the second write fails.
fn prints_a_front(alloc: Global) -> Result<bool, AllocError> {
    let mut cut = MemSink::new(alloc, 200, 20)?;
    cut.fail_at(2)?;
    let printed = print_missing("name", &mut cut);
    Ok(printed == Err(Failed) && cut.bytes() == b"INPUT missing ".as_slice())
}

#[test]
fn leaves_a_front_where_a_write_fails(rt: HostRuntime) -> Result<(), Fail> {
    assert!(rt; prints_a_front(rt.alloc())?);
    Ok(())
}
