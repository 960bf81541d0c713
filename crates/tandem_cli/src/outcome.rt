//! What comes of `tandem check`, before anything is written.

ghost use Rattle.std.specs.Prelude.{◌≡◌, ◌≤◌, IfSome};
ghost use Rattle.elf_image.specs.Faults.{Reads};
ghost use Rattle.elf_image.specs.Images.{loaded_of};
ghost use Rattle.tandem_cli.specs.Fits.{IsFit};
ghost use Rattle.tandem_cli.specs.Checks.{Caused, CountsStand, ImageCaused, ImageIs, ImageReads, IsAccepted};
ghost use Rattle.tandem_cli.specs.Checks.{OutcomeIs, OutcomeReads, StreamCaused, StreamIs};
ghost use Rattle.tandem_cli.specs.Checks.{image_read, meaning_of, no_image_of, stream_judged};
ghost use Rattle.tandem_cli.specs.Seen.{asked_seen, chosen_seen};

use super::chosen::CheckOptions;
use super::file_fault::FileFault;
use super::intake::{Whole, read_whole};
use super::words::CheckWords;
use elf_image::{Image, ImageFault};
use std::alloc::Global;
use tandem_core::{Unjudged, judge};
use tandem_io::{Failed, Inputs, Slot};
use verdict_report::Verdict;

/// Why there is no image.
#[derive(Clone, Copy, Debug, PartialEq, Eq)]
pub enum NoImage {
    /// No input of its name is there.
    Missing,
    /// Its input could not be opened.
    Unopened,
    /// Its input could not be read.
    Unread,
    /// Its input is none.
    Refused(FileFault),
    /// Memory was refused.
    Memory,
}

/// Why there is no verdict on a stream.
#[derive(Clone, Copy, Debug, PartialEq, Eq)]
pub enum NoVerdict {
    /// No input of its name is there.
    Missing,
    /// Its input could not be opened.
    Unopened,
    /// Its input could not be read up to the verdict.
    Unread,
    /// Memory was refused.
    Memory,
}

/// What comes of a check.
#[derive(Clone, Copy, Debug, PartialEq, Eq)]
pub enum Outcome {
    /// There is no image, and the stream was not attached.
    Unloaded(NoImage),
    /// There is an image, and no verdict.
    Unjudged(NoVerdict),
    /// The verdict on the stream.
    Judged(Verdict),
}

/// Reads the image whole, and then judges the stream frame by frame.
pub fn check<I: Inputs>(alloc: Global, asked: &CheckWords, ins: &mut I) -> Outcome
    requires { IsFit (chosen_seen asked.now.options) }
    ensures outcome { IfSome (I.names ins.old) (λ names.
        OutcomeIs (asked_seen asked.now) names result (I.slots ins.new).stream.left) }
    ensures reads { IfSome (I.names ins.old) (λ names.
        OutcomeReads (asked_seen asked.now) names result (I.slots ins.old).image (I.slots ins.new).image) }
    ensures cause { Caused result (I.slots ins.old) (I.slots ins.new) }
    ensures counts { CountsStand (I.slots ins.old) (I.slots ins.new) }
    ensures names { I.names ins.new ≡ I.names ins.old }
{
    let image = match read_image(alloc, asked, ins) {
        Ok(image) => image,
        Err(why) => return Outcome::Unloaded(why),
    };
    match judge_stream(alloc, &image, asked, ins) {
        Ok(verdict) => Outcome::Judged(verdict),
        Err(why) => Outcome::Unjudged(why),
    }
}

// The image that is asked for. Nothing of the stream is touched.
fn read_image<I: Inputs>(alloc: Global, asked: &CheckWords, ins: &mut I) -> Result<Image, NoImage>
    requires { IsFit (chosen_seen asked.now.options) }
    ensures image { IfSome (I.names ins.old) (λ names. ImageIs (asked_seen asked.now) names result) }
    ensures reads { IfSome (I.names ins.old) (λ names.
        ImageReads (asked_seen asked.now) names result (I.slots ins.old).image (I.slots ins.new).image) }
    ensures cause { ImageCaused result (I.slots ins.old).image (I.slots ins.new).image }
    ensures count { (I.slots ins.old).image.faults ≤ (I.slots ins.new).image.faults }
    ensures names { I.names ins.new ≡ I.names ins.old }
    ensures stream { (I.slots ins.new).stream ≡ (I.slots ins.old).stream }
{
    match ins.attach(Slot::Image, asked.image) {
        Ok(true) => {}
        Ok(false) => return Err(NoImage::Missing),
        Err(Failed) => return Err(NoImage::Unopened),
    }
    match read_whole(alloc, ins) {
        Whole::Bytes(bytes) => image_or_fault(make_image(alloc, &bytes, &asked.options)),
        Whole::Failed => Err(NoImage::Unread),
        Whole::Memory => Err(NoImage::Memory),
    }
}

// The image that the bytes mean.
fn make_image(alloc: Global, bytes: &[u8], options: &CheckOptions) -> Result<Image, ImageFault>
    requires { IsFit (chosen_seen options.now) }
    ensures { Reads result (meaning_of (chosen_seen options.now) bytes.now) }
{
    match options.flat {
        Some(base) => Image::flat(alloc, bytes, base, &options.rams),
        None => Image::read_elf(alloc, bytes, &options.rams),
    }
}

// What a reader's answer comes to.
fn image_or_fault(read: Result<Image, ImageFault>) -> Result<Image, NoImage>
    ensures { result ≡ image_read read }
{
    match read {
        Ok(image) => Ok(image),
        Err(fault) => Err(no_image(fault)),
    }
}

// Why there is no image.
fn no_image(fault: ImageFault) -> NoImage
    ensures { result ≡ no_image_of fault }
{
    let fault = match fault {
        ImageFault::NotElf => FileFault::NotElf,
        ImageFault::Class => FileFault::Class,
        ImageFault::Kind => FileFault::Kind,
        ImageFault::Machine => FileFault::Machine,
        ImageFault::Headers(offset) => FileFault::Headers(offset),
        ImageFault::Segment(index) => FileFault::Segment(index),
        ImageFault::Overlap(first, second) => FileFault::Overlap(first, second),
        ImageFault::TooLarge(limit) => FileFault::TooLarge(limit),
        ImageFault::Memory => return NoImage::Memory,
    };
    NoImage::Refused(fault)
}

// The verdict on the stream that is asked for.
fn judge_stream<I: Inputs>(
    alloc: Global,
    image: &Image,
    asked: &CheckWords,
    ins: &mut I,
) -> Result<Verdict, NoVerdict>
    requires { IsFit (chosen_seen asked.now.options) }
    ensures stream { IfSome (I.names ins.old) (λ names. IsAccepted (asked_seen asked.now) names (loaded_of image.now) →
        StreamIs (asked_seen asked.now) names result (I.slots ins.new).stream.left) }
    ensures cause { StreamCaused result (I.slots ins.old).stream (I.slots ins.new).stream }
    ensures count { (I.slots ins.old).stream.faults ≤ (I.slots ins.new).stream.faults }
    ensures names { I.names ins.new ≡ I.names ins.old }
    ensures image { (I.slots ins.new).image ≡ (I.slots ins.old).image }
{
    match ins.attach(Slot::Stream, asked.stream) {
        Ok(true) => {}
        Ok(false) => return Err(NoVerdict::Missing),
        Err(Failed) => return Err(NoVerdict::Unopened),
    }
    verdict_or_fault(judge(alloc, image, &asked.options.limits, ins))
}

// What the core's answer comes to.
fn verdict_or_fault(judged: Result<Verdict, Unjudged>) -> Result<Verdict, NoVerdict>
    ensures { result ≡ stream_judged judged }
{
    match judged {
        Ok(verdict) => Ok(verdict),
        Err(Unjudged::Failed) => Err(NoVerdict::Unread),
        Err(Unjudged::Memory) => Err(NoVerdict::Memory),
    }
}
