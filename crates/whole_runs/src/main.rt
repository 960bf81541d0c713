//! Whole runs of `tandem check` over inputs in memory: a test by its input and its output. A line of
//! the input has a name, the words, the image and the stream, with bars between them; a line of the
//! output has the name, the status, and the line that was written. Each run is made with reads of
//! several lengths. What has to come out was worked out by another implementation of the same rules.
#![tactic(auto)]

use std::alloc::{AllocError, Global};
use std::io;
use tandem_cli::run_check;
use tandem_io::{MemInputs, MemSink};

/// How many bytes a read brings at most.
const STEPS: [usize; 5] = [4096, 1, 7, 65_536, 1_000_000];

/// What a run writes, and the status that it answers.
#[derive(PartialEq, Drop)]
struct Told {
    line: Vec<u8>,
    status: u8,
}

/// What the image and the stream are.
#[derive(Clone, Copy)]
struct Files<'a> {
    image: &'a [u8],
    stream: &'a [u8],
}

/// Adds the bytes of a text in hexadecimal, so many times. It adds none where the text is no such.
fn add_times(alloc: Global, bytes: &mut Vec<u8>, text: &str, times: u32) -> Result<(), AllocError> {
    let Ok(piece) = hex::decode(alloc, text) else {
        return Ok(());
    };
    for _ in 0..times {
        bytes.extend_from_slice(&piece)?;
    }
    Ok(())
}

/// The bytes of a text: pieces in hexadecimal with spaces between them, each once, or as often as
/// a number behind a star says.
fn bytes_of(alloc: Global, text: &str) -> Result<Vec<u8>, AllocError> {
    let mut bytes = Vec::new(alloc);
    for piece in text.split(' ') {
        match piece.split_once('*') {
            Some((text, times)) => add_times(alloc, &mut bytes, text, times.parse().unwrap_or(0))?,
            None => add_times(alloc, &mut bytes, piece, 1)?,
        }
    }
    Ok(bytes)
}

/// The words of the text, which single spaces part. A tilde is a space within a word.
fn words_of(alloc: Global, text: &str) -> Result<Vec<String>, AllocError> {
    let mut words = Vec::new(alloc);
    for word in text.split(' ') {
        words.push(word.replace(alloc, '~', " ")?)?;
    }
    Ok(words)
}

/// Runs the words over the image as `i` and the stream as `s`, with reads of at most `step` bytes.
fn run(alloc: Global, words: &[String], files: &Files, step: usize) -> Result<Told, AllocError> {
    let mut ins = MemInputs::new(alloc, step.max(1));
    ins.add("i", files.image)?;
    ins.add("s", files.stream)?;
    let mut out = MemSink::new(alloc, 8192, 512)?;
    let status = run_check(alloc, words, &mut ins, &mut out);
    let mut line = Vec::new(alloc);
    line.extend_from_slice(out.bytes())?;
    Ok(Told { line, status })
}

/// Writes what came of a run.
fn write(rt: &HostRuntime, name: &str, told: &Told) -> io::Result<()> {
    let line = str::from_utf8(&told.line).unwrap_or("?\n");
    print!(rt; "{name}|{}|{line}", told.status)
}

/// Writes what comes of the runs of a line of the input: of the first one, and of each other that
/// brings anything else.
fn answer(rt: &HostRuntime, name: &str, words: &[String], files: &Files) -> io::Result<()> {
    let first = run(rt.alloc(), words, files, 4096)?;
    write(rt, name, &first)?;
    for step in STEPS {
        let other = run(rt.alloc(), words, files, step)?;
        if other != first {
            write(rt, name, &other)?;
        }
    }
    Ok(())
}

/// Takes a line of the input apart.
fn take(rt: &HostRuntime, text: &str) -> io::Result<()> {
    let mut parts = text.split('|');
    let name = parts.next().unwrap_or("");
    let words = words_of(rt.alloc(), parts.next().unwrap_or(""))?;
    let image = bytes_of(rt.alloc(), parts.next().unwrap_or(""))?;
    let stream = bytes_of(rt.alloc(), parts.next().unwrap_or(""))?;
    let files = Files {
        image: &image,
        stream: &stream,
    };
    answer(rt, name, &words, &files)
}

fn main(rt: HostRuntime) -> io::Result<()> {
    for text in rt.lines(rt.alloc()) {
        let text = text?;
        take(&rt, text.as_str())?;
    }
    Ok(())
}
