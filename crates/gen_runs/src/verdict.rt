//! The verdict on a made stream.

ghost use Rattle.std.specs.Prelude.{◌≡◌, IfOk, None};
ghost use Rattle.elf_image.specs.Images.{loaded_of};
ghost use Rattle.gen_runs.specs.Accepting.{made_accept};
ghost use Rattle.gen_runs.specs.Verdicts.{flipped, made_bytes, made_verdict};
ghost use Rattle.tandem_core.specs.Judgements.{judgement};
ghost use Rattle.tandem_core.specs.Limits.{ceilings};
ghost use Rattle.trace_gen.specs.Making.{CanMake};
ghost use Rattle.trace_gen.specs.Program.{made_image};

use super::bytes::{flip, frames_of};
use elf_image::Image;
use std::alloc::{AllocError, Global};
use tandem_core::{Limits, Unjudged, judge};
use tandem_io::{Inputs, Slot, SureInputs};
use trace_gen::{Made, make};
use verdict_report::Verdict;

// How many bytes the source lends at a time.
const STEP: usize = 65_536;

// The image that was made, and the bytes that are judged.
#[derive(Drop)]
struct Stream {
    image: Image,
    bytes: Vec<u8>,
}

/// Makes the stream of 1 to 16 harts with `count` rounds each, at most 100,000 together, flips the
/// lowest bit of the byte that is named, if there is one, and judges the stream. The limits are at
/// their ceilings. A stream of which no byte is named is accepted. An error is want of memory.
pub fn judge_made(
    alloc: Global,
    seed: u64,
    harts: u8,
    count: u32,
    flip: Option<u64>,
) -> Result<Verdict, AllocError>
    requires { CanMake harts count }
    ensures verdict { IfOk result (λ verdict. verdict ≡ made_verdict seed harts count flip) }
    ensures accepted { IfOk result (λ verdict. flip ≡ None → verdict ≡ made_accept seed harts count) }
{
    let stream = made_stream(alloc, seed, harts, count, flip)?;
    judge_bytes(alloc, &stream.image, &stream.bytes)
}

// The image, and the bytes after the flip.
fn made_stream(
    alloc: Global,
    seed: u64,
    harts: u8,
    count: u32,
    at: Option<u64>,
) -> Result<Stream, AllocError>
    requires { CanMake harts count }
    ensures image { IfOk result (λ stream. loaded_of stream.image ≡ made_image) }
    ensures bytes { IfOk result (λ stream. stream.bytes.items ≡ flipped at (made_bytes seed harts count)) }
{
    let Made { image, messages } = make(alloc, seed, harts, count)?;
    let mut bytes = frames_of(alloc, &messages)?;
    flip(&mut bytes, at);
    Ok(Stream { image, bytes })
}

// The verdict on bytes in memory.
fn judge_bytes(alloc: Global, image: &Image, bytes: &[u8]) -> Result<Verdict, AllocError>
    ensures { IfOk result (λ verdict.
        verdict ≡ (judgement (loaded_of image.now) ceilings bytes.now).verdict) }
{
    let mut source = SureInputs::new(alloc, STEP);
    source.add("made", bytes)?;
    let _is_there = source.attach(Slot::Stream, "made");
    match judge(alloc, image, &Limits::CEILINGS, &mut source) {
        Ok(verdict) => Ok(verdict),
        Err(Unjudged::Memory) => Err(AllocError),
        Err(Unjudged::Failed) => unreachable!(),
    }
}
