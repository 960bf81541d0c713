//! The lists of a trace, made of what was kept of its messages.

ghost use Rattle.std.specs.Prelude.{◌≡◌, ◌++◌, ◌<◌, ◌≤◌, List, length, map, reverse, IfOk, OnOk};
ghost use Rattle.std.specs.List.{flat_map};
ghost use Rattle.elf_image.specs.Images.{Loaded};
ghost use Rattle.msg_frames.specs.declared.message.Message.{Message};
ghost use Rattle.matching.specs.Fates as Fates;
ghost use Rattle.matching.specs.Tables.{Stands, fate_in_store};
ghost use Rattle.trace_model.specs.Extents as Extents;
ghost use Rattle.trace_model.specs.Tracers.{ops_seen, place_tracked, tracked_in};
ghost use Rattle.trace_model.specs.Marks.{eight};
ghost use Rattle.trace_model.specs.Traces as Traces;

use super::access::Access;
use super::parts::{count_parts, push_parts, whole_op};
use super::retirements::{KeptUse, bypass_access, place_of_report, zeros};
use matching::{Fate, Matching, OpenReport, Tracked, store_under};
use rvwmo_model::{Ann, InsnList, Op, OpKind, OpList, Retired};
use std::alloc::{AllocError, Global};
use tandem_base::{Extent, Place};

/// A list of these instructions.
pub fn insns(alloc: Global, insns: &[Retired]) -> Result<InsnList, AllocError>
    ensures { IfOk result (λ list. list ≡ insns.now) }
{
    let mut list = InsnList::new(alloc);
    for insn in insns {
        list.push(*insn)?;
    }
    Ok(list)
}

/// Where a byte was performed.
fn place_of(fate: Fate) -> Option<Place>
    ensures { result ≡ Fates.place_of fate }
{
    match fate {
        Fate::Nothing | Fate::Waiting(_) => None,
        Fate::Done(place) => Some(place),
    }
}

/// Where byte `k` of a store was performed, None where there is no store.
fn place_at(tracked: &Option<Tracked>, k: usize) -> Option<Place>
    requires { k < 8 }
    ensures { result ≡ place_tracked tracked.now k }
{
    match tracked {
        Some(tracked) => place_of(tracked.fates[k]),
        None => None,
    }
}

/// Where the bytes of a store were performed.
fn places_of(tracked: &Option<Tracked>) -> [Option<Place>; 8]
    ensures { result ≡ eight (place_tracked tracked.now) }
{
    [
        place_at(tracked, 0),
        place_at(tracked, 1),
        place_at(tracked, 2),
        place_at(tracked, 3),
        place_at(tracked, 4),
        place_at(tracked, 5),
        place_at(tracked, 6),
        place_at(tracked, 7),
    ]
}

/// The store of an access, with the fates of its bytes.
fn tracked_store(matching: &Matching, access: &Access) -> Option<Tracked>
    ensures { (image : Loaded) (before : List Message) → Stands image matching.now before →
        result ≡ tracked_in image before access.now.hart access.now.tag }
{
    if access.hart < 16 {
        store_under(matching.tracked_stores(access.hart), access.tag)
    } else {
        None
    }
}

/// Puts the operations of what an instruction did at the end of a list.
fn push_ops(list: &mut OpList, used: &KeptUse, matching: &Matching) -> Result<(), AllocError>
    ensures { (image : Loaded) (before : List Message) → Stands image matching.now before →
        OnOk result (list.new ≡ list.old ++ ops_seen image before used.now) }
{
    match used {
        KeptUse::Loaded(access, places) => push_parts(list, access, places),
        KeptUse::Stored(access) => {
            let tracked = tracked_store(matching, access);
            push_parts(list, access, &places_of(&tracked))
        }
        KeptUse::Whole(access, place) => {
            list.push(whole_op(access, *place))?;
            Ok(())
        }
    }
}

/// The operations of what some instructions did.
pub fn ops(alloc: Global, uses: &[KeptUse], matching: &Matching) -> Result<OpList, AllocError>
    ensures { (image : Loaded) (before : List Message) → Stands image matching.now before →
        IfOk result (λ list. list ≡ flat_map (ops_seen image before) (reverse uses.now)) }
{
    let mut list = OpList::new(alloc);
    let mut n = uses.len();
    while n > 0 {
        n -= 1;
        push_ops(&mut list, &uses[n], matching)?;
    }
    Ok(list)
}

/// How many operations there are of what an instruction did.
fn count_of(used: &KeptUse, matching: &Matching) -> u64
    ensures value { (image : Loaded) (before : List Message) → Stands image matching.now before →
        result ≡ length (ops_seen image before used.now) }
    ensures bound { result ≤ 8 }
{
    match used {
        KeptUse::Loaded(access, places) => count_parts(access, places),
        KeptUse::Stored(access) => {
            let tracked = tracked_store(matching, access);
            count_parts(access, &places_of(&tracked))
        }
        KeptUse::Whole(..) => 1,
    }
}

/// How many operations there are of what some instructions did.
pub fn count_ops(uses: &[KeptUse], matching: &Matching) -> u64
    ensures { (image : Loaded) (before : List Message) → Stands image matching.now before →
        result ≡ length (flat_map (ops_seen image before) (reverse uses.now)) }
{
    let mut count = 0;
    for used in uses {
        count += count_of(used, matching);
    }
    count
}

/// The byte at address 0.
fn first_byte() -> Extent
    ensures addr { result.addr ≡ 0 }
    ensures len { result.len ≡ 1 }
{
    match Extent::new(0, 1) {
        Some(extent) => extent,
        None => unreachable!(),
    }
}

/// The extent of `len` bytes from an address on; the byte at 0 where there is none.
fn extent_of(addr: u64, len: u8) -> Extent
    ensures { result ≡ Extents.extent_of addr len }
{
    match Extent::new(addr, len) {
        Some(extent) => extent,
        None => first_byte(),
    }
}

/// An early Bypass as a store: its instruction has not retired, so it has no annotation yet.
fn early_op(report: &OpenReport) -> Op
    ensures { result ≡ Traces.early_op report.now }
{
    let extent = extent_of(report.piece.addr, report.piece.bytes.len());
    let got = zeros(&extent);
    let access = bypass_access(OpKind::Store, &extent, got, Ann::None, Ann::None, report);
    whole_op(&access, place_of_report(report))
}

/// The early Bypasses as stores.
pub fn early_ops(alloc: Global, early: &[OpenReport]) -> Result<OpList, AllocError>
    ensures { IfOk result (λ list. list ≡ map Traces.early_op (reverse early.now)) }
{
    let mut list = OpList::new(alloc);
    let mut n = early.len();
    while n > 0 {
        n -= 1;
        list.push(early_op(&early[n]))?;
    }
    Ok(list)
}
