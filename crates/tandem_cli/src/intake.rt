//! The image's input, read whole.

ghost use Rattle.std.specs.Prelude.{◌≡◌, ◌<◌, ◌≤◌, length};
ghost use Rattle.tandem_io.specs.Causes.{Rose};
ghost use Rattle.tandem_cli.specs.Intake.{WholeEnds, WholeIs};

use elf_image::MOST_FILE_BYTES;
use std::alloc::Global;
use tandem_io::{Failed, Inputs};

// How many bytes of an image are read at most: one more than an image may have.
const MOST: usize = MOST_FILE_BYTES + 1;

// How many bytes are asked for at a time.
const PIECE: usize = 65_536;

/// What comes of reading an input whole.
#[derive(Debug, Drop)]
pub enum Whole {
    /// Its bytes, or the first of them where there are more than are read.
    Bytes(Vec<u8>),
    /// A read failed.
    Failed,
    /// Memory was refused.
    Memory,
}

/// Reads what is attached as the image to its end, or up to one byte more than an image may have.
/// Nothing else of the inputs changes.
pub fn read_whole<I: Inputs>(alloc: Global, ins: &mut I) -> Whole
    ensures bytes { WholeIs result (I.slots ins.old).image.left (I.slots ins.new).image.left }
    ensures ends { WholeEnds result (I.slots ins.new).image.ended }
    ensures count { (I.slots ins.old).image.faults ≤ (I.slots ins.new).image.faults }
    ensures cause { result ≡ Whole.Failed → Rose (I.slots ins.old).image.faults (I.slots ins.new).image.faults }
    ensures attached { (I.slots ins.new).image.attached ≡ (I.slots ins.old).image.attached }
    ensures names { I.names ins.new ≡ I.names ins.old }
    ensures stream { (I.slots ins.new).stream ≡ (I.slots ins.old).stream }
{
    match Vec::from_elem(alloc, 0, PIECE) {
        Ok(mut piece) => read_by(alloc, ins, &mut piece),
        Err(_) => Whole::Memory,
    }
}

// The same, by pieces that are as long as this one.
fn read_by<I: Inputs>(alloc: Global, ins: &mut I, piece: &mut [u8]) -> Whole
    requires { 0 < length piece.old }
    ensures bytes { WholeIs result (I.slots ins.old).image.left (I.slots ins.new).image.left }
    ensures ends { WholeEnds result (I.slots ins.new).image.ended }
    ensures count { (I.slots ins.old).image.faults ≤ (I.slots ins.new).image.faults }
    ensures cause { result ≡ Whole.Failed → Rose (I.slots ins.old).image.faults (I.slots ins.new).image.faults }
    ensures attached { (I.slots ins.new).image.attached ≡ (I.slots ins.old).image.attached }
    ensures names { I.names ins.new ≡ I.names ins.old }
    ensures stream { (I.slots ins.new).stream ≡ (I.slots ins.old).stream }
{
    let mut bytes = Vec::new(alloc);
    while bytes.len() < MOST {
        let room = (MOST - bytes.len()).min(piece.len());
        match ins.read_image(&mut piece[..room]) {
            Ok(0) => return Whole::Bytes(bytes),
            Ok(n) => {
                if bytes.extend_from_slice(&piece[..n]).is_err() {
                    return Whole::Memory;
                }
            }
            Err(Failed) => return Whole::Failed,
        }
    }
    Whole::Bytes(bytes)
}
