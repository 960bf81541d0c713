//! What an instruction does to memory when it retires.

ghost use Rattle.std.specs.Prelude.{◌≡◌, ◌<◌, ℕ, replicate, reverse};
ghost use Rattle.matching.specs.Reports as Reports;
ghost use Rattle.trace_model.specs.Entries.{Fixed, Stores};
ghost use Rattle.trace_model.specs.Extents.{extent_of};
ghost use Rattle.trace_model.specs.Marks.{place_in};
ghost use Rattle.trace_model.specs.Retirements as Retirements;
ghost use Rattle.trace_model.specs.Seen.{memory_seen, use_seen};

use super::access::Access;
use matching::{OpenReport, bytes_read, counting};
use msg_frames::{Head, Piece};
use rv_decode::Insn;
use rvwmo_model::{Ann, OpKind};
use tandem_base::{Bytes8, Extent, Place};

/// What an instruction did to memory, as it is kept.
#[derive(Clone, Copy, Debug)]
pub enum KeptUse {
    /// It loaded: each of its bytes at the place of the Read that counts.
    Loaded(Access, [Option<Place>; 8]),

    /// It stores, and its bytes are performed later.
    Stored(Access),

    /// It was performed whole, at this place.
    Whole(Access, Place),
}

/// An annotation, where there is one.
fn rcsc_where(on: bool) -> Ann
    ensures { result ≡ Retirements.rcsc_where on }
{
    if on { Ann::Rcsc } else { Ann::None }
}

/// The annotation of an instruction's operations as acquires.
fn acquire_of(insn: &Insn) -> Ann
    ensures { result ≡ Retirements.acquire_of insn.now }
{
    match insn {
        Insn::Lr { aq, .. } | Insn::Amo { aq, .. } => rcsc_where(*aq),
        Insn::Sc { aq, rl, .. } => rcsc_where(*aq && *rl),
        _ => Ann::None,
    }
}

/// The annotation of an instruction's operations as releases.
fn release_of(insn: &Insn) -> Ann
    ensures { result ≡ Retirements.release_of insn.now }
{
    match insn {
        Insn::Lr { aq, rl, .. } => rcsc_where(*aq && *rl),
        Insn::Sc { rl, .. } | Insn::Amo { rl, .. } => rcsc_where(*rl),
        _ => Ann::None,
    }
}

/// Bytes of 0 over an extent.
pub fn zeros(extent: &Extent) -> Bytes8
    ensures { result ≡ replicate extent.now.len 0 }
{
    let zeros: [u8; 8] = [0; 8];
    match Bytes8::new(&zeros[..usize::from(extent.len())]) {
        Some(made) => made,
        None => unreachable!(),
    }
}

/// The access of a load or LR.
fn load_access(live: &[OpenReport], head: &Head, insn: &Insn, extent: &Extent) -> Access
    ensures { result ≡ Retirements.load_access (reverse live.now) head.now insn.now extent.now }
{
    Access {
        hart: head.hart,
        tag: head.tag,
        kind: OpKind::Load,
        extent: *extent,
        got: bytes_read(live, head.tag, extent),
        put: zeros(extent),
        acquire: acquire_of(insn),
        release: release_of(insn),
    }
}

/// The place of a Read or Bypass.
pub fn place_of_report(report: &OpenReport) -> Place
    ensures { result ≡ Reports.place_of_report report.now }
{
    Place {
        time: report.time,
        message: report.number,
        insert: report.number,
    }
}

/// The place of the Read that counts for a byte, None where there is none.
fn read_place(live: &[OpenReport], tag: u64, x: u64) -> Option<Place>
    ensures { result ≡ Reports.place_counted (Reports.counting (reverse live.now) tag x) }
{
    match counting(live, tag, x) {
        Some(report) => Some(place_of_report(&report)),
        None => None,
    }
}

/// The places of the Reads that count for the bytes of a load.
fn read_places(live: &[OpenReport], tag: u64, extent: &Extent) -> [Option<Place>; 8]
    ensures { (k : ℕ) → k < extent.now.len →
        place_in result k ≡ Retirements.read_places (reverse live.now) tag extent.now k }
{
    let mut places: [Option<Place>; 8] = [None; 8];
    for k in 0..extent.len() {
        places[usize::from(k)] = read_place(live, tag, extent.addr() + u64::from(k));
    }
    places
}

/// What a load or LR did.
pub fn load_use(live: &[OpenReport], head: &Head, insn: &Insn, extent: &Extent) -> KeptUse
    ensures { use_seen result ≡ Fixed (Retirements.load_ops (reverse live.now) head.now insn.now
        (extent_of extent.now.addr extent.now.len)) }
{
    let access = load_access(live, head, insn, extent);
    let places = read_places(live, head.tag, extent);
    KeptUse::Loaded(access, places)
}

/// What a plain store does.
pub fn store_use(head: &Head, insn: &Insn, extent: &Extent, piece: &Piece) -> KeptUse
    ensures { use_seen result ≡ Stores (Retirements.store_access head.now insn.now
        (extent_of extent.now.addr extent.now.len) piece.now.bytes) }
{
    KeptUse::Stored(Access {
        hart: head.hart,
        tag: head.tag,
        kind: OpKind::Store,
        extent: *extent,
        got: zeros(extent),
        put: piece.bytes,
        acquire: acquire_of(insn),
        release: release_of(insn),
    })
}

/// The access of a Bypass over an extent, with what was loaded there.
pub fn bypass_access(
    kind: OpKind,
    extent: &Extent,
    got: Bytes8,
    acquire: Ann,
    release: Ann,
    report: &OpenReport,
) -> Access
    ensures { result ≡ Retirements.bypass_access kind extent.now got acquire release report.now }
{
    Access {
        hart: report.hart,
        tag: report.tag,
        kind,
        extent: *extent,
        got,
        put: report.piece.bytes,
        acquire,
        release,
    }
}

/// What an AMO or SC did, by its Bypass; None where it has none.
pub fn atomic_use(
    kind: OpKind,
    insn: &Insn,
    extent: &Extent,
    got: Bytes8,
    bypass: &Option<OpenReport>,
) -> Option<KeptUse>
    ensures { memory_seen result ≡ Fixed (Retirements.atomic_ops kind extent.now got
        (Retirements.acquire_of insn.now) (Retirements.release_of insn.now) bypass.now) }
{
    match bypass {
        Some(report) => {
            let acquire = acquire_of(insn);
            let release = release_of(insn);
            let access = bypass_access(kind, extent, got, acquire, release, report);
            Some(KeptUse::Whole(access, place_of_report(report)))
        }
        None => None,
    }
}
