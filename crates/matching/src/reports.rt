//! The Reads and the early Bypasses that still count, in the order in which they came.

ghost use Rattle.std.specs.Prelude.{◌≡◌, ◌+◌, ◌≤◌, ◌<◌, ◌==◌, ◌&&◌, not, nat_lt, reverse, IfSome, true};
ghost use Rattle.std.specs.List.{filter};
ghost use Rattle.matching.specs.Searches.{first_below};
ghost use Rattle.msg_frames.specs.Pieces.{has};
ghost use Rattle.matching.specs.Reports as Reports;
ghost use Rattle.matching.specs.RetireFaults as RetireFaults;
ghost use Rattle.matching.specs.EndFaults as EndFaults;

use super::pieces::has_byte;
use msg_frames::{Head, Piece};
use tandem_base::{Bytes8, Extent};

/// A Read or an early Bypass.
#[derive(Clone, Copy, Debug, PartialEq, Eq)]
pub struct OpenReport {
    /// The number of the hart, from 0.
    pub hart: u8,
    /// The tag of the instruction.
    pub tag: u64,
    /// The time of the message.
    pub time: u64,
    /// The number of the message, from 1.
    pub number: u64,
    /// The bytes.
    pub piece: Piece,
}

/// The report of message n.
pub(crate) fn report_from(n: u64, head: &Head, piece: &Piece) -> OpenReport
    ensures { result ≡ Reports.open_report_of n head.now piece.now }
{
    OpenReport {
        hart: head.hart,
        tag: head.tag,
        time: head.time,
        number: n,
        piece: *piece,
    }
}

/// The early Bypass of an instruction, if it has one.
pub fn early_of(early: &[OpenReport], hart: u8, tag: u64) -> Option<OpenReport>
    ensures { result ≡ Reports.early_of (reverse early.now) hart tag }
{
    let mut found: Option<OpenReport> = None;
    for report in early {
        if report.hart == hart && report.tag == tag {
            found = Some(*report);
        }
    }
    found
}

/// Looks for the early Bypass of an instruction, and puts it into its place; None if it has none.
pub(crate) fn early_into(early: &[OpenReport], hart: u8, tag: u64, bypass: &mut Option<OpenReport>)
    ensures { bypass.new ≡ Reports.early_of (reverse early.now) hart tag }
{
    *bypass = None;
    if !early.is_empty() {
        *bypass = early_of(early, hart, tag);
    }
}

/// The Read that counts for byte x of an instruction.
pub fn counting(live: &[OpenReport], tag: u64, x: u64) -> Option<OpenReport>
    ensures value { result ≡ Reports.counting (reverse live.now) tag x }
    ensures covers { IfSome result (λ r. has r.piece x ≡ true) }
{
    let mut found: Option<OpenReport> = None;
    for report in live {
        if report.tag == tag && has_byte(&report.piece, u128::from(x)) {
            found = Some(*report);
        }
    }
    found
}

/// How far behind its address is the first byte of a load that has no Read.
pub(crate) fn first_missing(live: &[OpenReport], tag: u64, extent: &Extent) -> Option<u8>
    ensures bound { IfSome result (λ k. k < extent.now.len) }
    ensures value { result
        ≡ first_below (RetireFaults.is_missing (reverse live.now) tag extent.now.addr) extent.now.len }
{
    let mut first = None;
    for k in 0..extent.len() {
        if first.is_none() && counting(live, tag, extent.addr() + u64::from(k)).is_none() {
            first = Some(k);
        }
    }
    first
}

/// Whether two Reads are the same, or both are none.
fn is_same_read(a: &Option<OpenReport>, b: &Option<OpenReport>) -> bool
    ensures { result ≡ RetireFaults.same_read a.now b.now }
{
    match (a, b) {
        (Some(a), Some(b)) => a.number == b.number,
        (None, None) => true,
        _ => false,
    }
}

/// How far behind its address is the first byte of a load that has another Read than its first.
pub(crate) fn first_torn(live: &[OpenReport], tag: u64, extent: &Extent) -> Option<u8>
    ensures bound { IfSome result (λ k. k < extent.now.len) }
    ensures value { result
        ≡ first_below (RetireFaults.is_torn (reverse live.now) tag extent.now.addr) extent.now.len }
{
    let lowest = counting(live, tag, extent.addr());
    let mut first = None;
    for k in 0..extent.len() {
        let read = counting(live, tag, extent.addr() + u64::from(k));
        if first.is_none() && !is_same_read(&lowest, &read) {
            first = Some(k);
        }
    }
    first
}

/// The byte of the Read that counts, 0 where there is none.
fn byte_read(live: &[OpenReport], tag: u64, x: u64) -> u8
    ensures { result ≡ Reports.byte_counted x (Reports.counting (reverse live.now) tag x) }
{
    match counting(live, tag, x) {
        Some(read) => read.piece.bytes.byte((x - read.piece.addr) as u8),
        None => 0,
    }
}

/// The bytes that an instruction loads, 0 where no Read counts.
pub fn bytes_read(live: &[OpenReport], tag: u64, extent: &Extent) -> Bytes8
    ensures { result ≡ Reports.bytes_counted (reverse live.now) tag extent.now.addr extent.now.len }
{
    let mut buf: [u8; 8] = [0; 8];
    for k in 0..extent.len() {
        buf[usize::from(k)] = byte_read(live, tag, extent.addr() + u64::from(k));
    }
    match Bytes8::new(&buf[..usize::from(extent.len())]) {
        Some(made) => made,
        None => unreachable!(),
    }
}

/// Drops the Reads up to a tag.
pub(crate) fn keep_above(live: &mut Vec<OpenReport>, tag: u64)
    ensures { reverse live.new.items ≡ filter (λ r. nat_lt tag r.tag) (reverse live.old.items) }
{
    if !live.is_empty() {
        live.retain(|r| tag < r.tag);
    }
}

/// Drops the Reads from a tag on.
pub(crate) fn keep_below(live: &mut Vec<OpenReport>, tag: u64)
    ensures { reverse live.new.items ≡ filter (λ r. nat_lt r.tag tag) (reverse live.old.items) }
{
    live.retain(|r| r.tag < tag);
}

/// Drops the early Bypass of an instruction.
pub(crate) fn drop_report(early: &mut Vec<OpenReport>, hart: u8, tag: u64)
    ensures { reverse early.new.items
        ≡ filter (λ r. not (Reports.is_report hart tag r)) (reverse early.old.items) }
{
    if !early.is_empty() {
        early.retain(|r| !(r.hart == hart && r.tag == tag));
    }
}

/// Whether a Bypass comes before another: by hart, then by tag.
fn is_first(a: &OpenReport, b: &OpenReport) -> bool
    ensures { result ≡ EndFaults.comes_first a.now b.now }
{
    a.hart < b.hart || (a.hart == b.hart && a.tag < b.tag)
}

/// The first of the two.
fn earlier_of(report: &OpenReport, least: &Option<OpenReport>) -> OpenReport
    ensures { result ≡ EndFaults.first_of report.now least.now }
{
    match least {
        Some(least) if !is_first(report, least) => *least,
        _ => *report,
    }
}

/// The early Bypass of the lowest hart, then of the lowest tag.
pub(crate) fn first_early(early: &[OpenReport]) -> Option<OpenReport>
    ensures { result ≡ EndFaults.first_bypass (reverse early.now) }
{
    let mut least: Option<OpenReport> = None;
    for report in early {
        least = Some(earlier_of(report, &least));
    }
    least
}
