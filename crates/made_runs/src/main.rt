//! Whole runs of `tandem gen`: a test by its input and its output. A line of the input has the words
//! that `gen` is given; the output has these words with the status, and then what was written. What
//! has to come out was worked out by another implementation of the same rules.
#![tactic(auto)]

use std::alloc::{AllocError, Global};
use std::io;
use tandem_cli::run_gen;
use tandem_io::MemSink;

/// The words of a text, which single spaces part. A tilde is a space within a word.
fn words_of(alloc: Global, text: &str) -> Result<Vec<String>, AllocError> {
    let mut words = Vec::new(alloc);
    for word in text.split(' ') {
        words.push(word.replace(alloc, '~', " ")?)?;
    }
    Ok(words)
}

/// Writes what comes of the words.
fn answer(rt: &HostRuntime, text: &str) -> io::Result<()> {
    let words = words_of(rt.alloc(), text)?;
    let mut out = MemSink::new(rt.alloc(), 4096, 64)?;
    let status = run_gen(rt.alloc(), &words, &mut out);
    println!(rt; "{text}|{status}")?;
    let told = str::from_utf8(out.bytes()).unwrap_or("?\n");
    print!(rt; "{told}")
}

fn main(rt: HostRuntime) -> io::Result<()> {
    for text in rt.lines(rt.alloc()) {
        let text = text?;
        answer(&rt, text.as_str())?;
    }
    Ok(())
}
