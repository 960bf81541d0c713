//! What is wrong with a Read, an Insert, a Bypass, a Write or a Poke: one check for each fault.

ghost use Rattle.std.specs.Prelude.{◌≡◌, ◌+◌, ◌-◌, ◌≤◌, ◌<◌, ◌^◌, ◌%◌, length, reverse, IfSome, OnOk, true};
ghost use Rattle.std.specs.List.{filter};
ghost use Rattle.elf_image.specs.Images.{loaded_of};
ghost use Rattle.msg_frames.specs.Pieces.{byte_written};
ghost use Rattle.rv_step.specs.Plans.{has_bytes};
ghost use Rattle.matching.specs.Checks.{Checks};
ghost use Rattle.matching.specs.Pieces.{first_other};
ghost use Rattle.matching.specs.PartFaults as Parts;
ghost use Rattle.matching.specs.Tables as Tables;

use super::faulty::{Faulty, refuse};
use super::pieces::{byte_at, first_different, fits_line, fits_space};
use super::reports::OpenReport;
use super::stores::{Held, Tracked, waiting_byte};
use elf_image::Image;
use msg_frames::{LineWrite, Piece};
use tandem_base::Extent;
use verdict_report::Fault;

/// A Poke comes before the hart's first Retire.
pub fn check_poke(last: Option<u64>, found: &mut Option<Fault>) -> Result<(), Faulty>
    ensures { Checks (Parts.poke_fault_of last) result found.new }
{
    match last {
        Some(_) => refuse(found, Fault::LatePoke),
        None => Ok(()),
    }
}

/// A Read's tag is above the last retired one.
pub fn check_late(last: Option<u64>, tag: u64, found: &mut Option<Fault>) -> Result<(), Faulty>
    ensures { Checks (Parts.late_fault_of last tag) result found.new }
{
    match last {
        Some(last) if tag <= last => refuse(found, Fault::LateTag { last }),
        _ => Ok(()),
    }
}

/// A Read doesn't pass 2^64.
pub fn check_read_range(piece: &Piece, found: &mut Option<Fault>) -> Result<(), Faulty>
    ensures { Checks (Parts.read_range_fault piece.now) result found.new }
{
    if fits_space(piece) {
        Ok(())
    } else {
        refuse(found, Fault::BadRange)
    }
}

/// Whether the image has every byte of the extent.
fn image_has(image: &Image, extent: Extent) -> bool
    ensures { result ≡ has_bytes (loaded_of image.now) extent.addr extent.len }
{
    image.holds(&extent)
}

/// Whether the image has every byte of a piece, and they don't pass 2^64.
fn is_in_image(image: &Image, piece: &Piece) -> bool
    ensures { result ≡ Parts.is_in_image (loaded_of image.now) piece.now }
{
    match Extent::new(piece.addr, piece.bytes.len()) {
        Some(extent) => image_has(image, extent),
        None => false,
    }
}

/// A Bypass is in the image.
pub fn check_bypass_range(
    image: &Image,
    piece: &Piece,
    found: &mut Option<Fault>,
) -> Result<(), Faulty>
    ensures fault { Checks (Parts.bypass_range_fault (loaded_of image.now) piece.now) result found.new }
    ensures within { OnOk result (piece.now.addr + length piece.now.bytes ≤ 2 ^ 64) }
{
    if is_in_image(image, piece) {
        Ok(())
    } else {
        refuse(found, Fault::BadRange)
    }
}

/// An Insert is in the image and in a line.
pub fn check_insert_range(
    image: &Image,
    piece: &Piece,
    found: &mut Option<Fault>,
) -> Result<(), Faulty>
    ensures fault { Checks (Parts.insert_range_fault (loaded_of image.now) piece.now) result found.new }
    ensures within { OnOk result (piece.now.addr + length piece.now.bytes ≤ 2 ^ 64) }
{
    if is_in_image(image, piece) && fits_line(piece) {
        Ok(())
    } else {
        refuse(found, Fault::BadRange)
    }
}

/// The bytes are all of the store, and new.
fn check_known(piece: &Piece, tracked: &Tracked, found: &mut Option<Fault>) -> Result<(), Faulty>
    ensures { Checks (Parts.unknown_fault_of (Tables.fate_in_store tracked.now) piece.now tracked.now.store)
        result found.new }
{
    if tracked.is_known(piece) {
        Ok(())
    } else {
        refuse(found, Fault::UnknownStore)
    }
}

/// The bytes are the store's.
fn check_data(piece: &Piece, tracked: &Tracked, found: &mut Option<Fault>) -> Result<(), Faulty>
    requires { piece.now.addr + length piece.now.bytes ≤ 2 ^ 64 }
    ensures { Checks (Parts.data_fault_of piece.now tracked.now.store) result found.new }
{
    let store = &tracked.store.piece;
    match first_different(store, piece, piece.addr, piece.bytes.len()) {
        Some(k) => {
            let at = piece.addr + u64::from(k);
            refuse(
                found,
                Fault::StoreData {
                    at,
                    want: byte_at(store, at),
                    got: byte_at(piece, at),
                },
            )
        }
        None => Ok(()),
    }
}

/// Whether the address is a multiple of the length.
fn is_aligned(piece: &Piece) -> bool
    ensures { result ≡ Parts.is_aligned piece.now }
{
    piece.addr % u64::from(piece.bytes.len()) == 0
}

/// Whether the two have the same addresses.
fn is_whole(piece: &Piece, whole: &Piece) -> bool
    ensures { result ≡ Parts.is_whole piece.now whole.now }
{
    piece.addr == whole.addr && piece.bytes.len() == whole.bytes.len()
}

/// An aligned store is performed whole.
fn check_whole(piece: &Piece, tracked: &Tracked, found: &mut Option<Fault>) -> Result<(), Faulty>
    ensures { Checks (Parts.torn_store_fault_of piece.now tracked.now.store) result found.new }
{
    let store = &tracked.store.piece;
    if is_aligned(store) && !is_whole(piece, store) {
        refuse(found, Fault::TornStore)
    } else {
        Ok(())
    }
}

/// An Insert or a plain Bypass is a part of a store that retired.
pub fn check_part(
    piece: &Piece,
    tracked: &Option<Tracked>,
    found: &mut Option<Fault>,
) -> Result<(), Faulty>
    requires { piece.now.addr + length piece.now.bytes ≤ 2 ^ 64 }
    ensures { Checks (Tables.tracked_fault piece.now tracked.now) result found.new }
{
    match tracked {
        Some(tracked) => {
            check_known(piece, tracked, found)?;
            check_data(piece, tracked, found)?;
            check_whole(piece, tracked, found)
        }
        None => refuse(found, Fault::UnknownStore),
    }
}

/// An instruction has at most one early Bypass.
pub fn check_second(
    tag: u64,
    bypass: &Option<OpenReport>,
    found: &mut Option<Fault>,
) -> Result<(), Faulty>
    ensures { Checks (Parts.second_bypass_fault tag bypass.now) result found.new }
{
    match bypass {
        Some(_) => refuse(found, Fault::StrayBypass { bypass: tag }),
        None => Ok(()),
    }
}

/// The first of the first `count` bytes of the line that isn't what waits for it.
fn first_unlike(inserts: &[Held], write: &LineWrite, count: u8) -> Option<u8>
    requires line { write.now.line % 64 ≡ 0 }
    requires count { count ≤ 64 }
    ensures bound { IfSome result (λ k. k < count) }
    ensures value { result
        ≡ first_other (Parts.byte_waiting (filter (Tables.is_in write.now.line) (reverse inserts.now)))
        (byte_written write.now) write.now.line count }
{
    let mut first = None;
    for k in 0..count {
        let want = waiting_byte(inserts, write.line, write.line + u64::from(k));
        if first.is_none() && want != write.byte(k) {
            first = Some(k);
        }
    }
    first
}

/// A Write brings just the bytes that wait in its line.
#[tactic(auto, unfolding(crate::specs::PartFaults::first_unmerged))]
pub fn check_merge(
    inserts: &[Held],
    write: &LineWrite,
    found: &mut Option<Fault>,
) -> Result<(), Faulty>
    requires { write.now.line % 64 ≡ 0 }
    ensures { Checks (Parts.merge_fault_of (filter (Tables.is_in write.now.line) (reverse inserts.now)) write.now)
        result found.new }
{
    match first_unlike(inserts, write, 64) {
        Some(k) => {
            let at = write.line + u64::from(k);
            refuse(
                found,
                Fault::MergeMismatch {
                    at,
                    want: waiting_byte(inserts, write.line, at),
                    got: write.byte(k),
                },
            )
        }
        None => Ok(()),
    }
}
