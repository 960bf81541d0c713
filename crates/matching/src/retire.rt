//! What is wrong with a Retire beside what it reports of the hart: Reads, Bypasses, pairs.

ghost use Rattle.std.specs.Prelude.{◌≡◌, ◌+◌, reverse, is_some};
ghost use Rattle.rv_step.specs.Plans.{doing_seen};
ghost use Rattle.matching.specs.Checks.{Checks};
ghost use Rattle.matching.specs.Runs.{loaded_in};
ghost use Rattle.msg_frames.specs.Pieces.{byte_in};
ghost use Rattle.matching.specs.Pieces.{first_other};
ghost use Rattle.matching.specs.RetireFaults as Faults;

use super::faulty::{Faulty, refuse};
use super::pieces::{byte_at, first_different};
use super::reports::{OpenReport, bytes_read, first_missing, first_torn};
use super::run::{Clocks, Pair};
use msg_frames::{Piece, RdValue};
use rv_step::What;
use tandem_base::{Bytes8, Extent};
use verdict_report::{Fault, RdWant};

/// The bytes that an instruction loads, if it loads.
pub fn loaded(live: &[OpenReport], tag: u64, what: &What) -> Option<Bytes8>
    ensures { result ≡ loaded_in (reverse live.now) tag (doing_seen what.now) }
{
    match what {
        What::Load(_, extent) | What::Lr(_, extent) | What::Amo(_, extent) => {
            Some(bytes_read(live, tag, extent))
        }
        _ => None,
    }
}

/// Whether the bytes of a Bypass are just these.
fn is_over(extent: &Extent, piece: &Piece) -> bool
    ensures { result ≡ Faults.is_over extent.now.addr extent.now.len piece.now }
{
    piece.addr == extent.addr() && piece.bytes.len() == extent.len()
}

/// Whether an instruction may have this early Bypass.
fn is_bypassed(what: &What, piece: &Piece) -> bool
    ensures { result ≡ Faults.is_bypassed (doing_seen what.now) piece.now }
{
    match what {
        What::Sc(_, extent) | What::Amo(_, extent) => is_over(extent, piece),
        _ => false,
    }
}

/// Whether an early Bypass of the hart belongs to no AMO or SC.
fn is_stray(what: &What, hart: u8, tag: u64, report: &OpenReport) -> bool
    ensures { result ≡ Faults.is_stray (doing_seen what.now) hart tag report.now }
{
    report.hart == hart
        && (report.tag < tag || (report.tag == tag && !is_bypassed(what, &report.piece)))
}

/// The lower of two tags.
fn lower_tag(tag: u64, least: Option<u64>) -> u64
    ensures { result ≡ Faults.lower tag least }
{
    match least {
        Some(least) if least <= tag => least,
        _ => tag,
    }
}

/// The lowest tag of such a Bypass.
fn lowest_stray(what: &What, hart: u8, tag: u64, early: &[OpenReport]) -> Option<u64>
    ensures { result ≡ Faults.lowest_stray (doing_seen what.now) hart tag (reverse early.now) }
{
    let mut least: Option<u64> = None;
    for report in early {
        if is_stray(what, hart, tag, report) {
            least = Some(lower_tag(report.tag, least));
        }
    }
    least
}

/// No early Bypass of the hart is left behind, or belongs to an instruction that may have none.
pub fn check_stray(
    what: &What,
    hart: u8,
    tag: u64,
    early: &[OpenReport],
    found: &mut Option<Fault>,
) -> Result<(), Faulty>
    ensures { Checks (Faults.stray_fault_of (Faults.lowest_stray (doing_seen what.now) hart tag (reverse early.now)))
        result found.new }
{
    match lowest_stray(what, hart, tag, early) {
        Some(bypass) => refuse(found, Fault::StrayBypass { bypass }),
        None => Ok(()),
    }
}

/// Each of these bytes has a Read.
fn check_present(
    live: &[OpenReport],
    tag: u64,
    extent: &Extent,
    found: &mut Option<Fault>,
) -> Result<(), Faulty>
    ensures { Checks (Faults.reads_missing (reverse live.now) tag extent.now.addr extent.now.len) result found.new }
{
    match first_missing(live, tag, extent) {
        Some(k) => refuse(
            found,
            Fault::MissingRead {
                at: extent.addr() + u64::from(k),
            },
        ),
        None => Ok(()),
    }
}

/// These bytes have one Read.
fn check_one(
    live: &[OpenReport],
    tag: u64,
    extent: &Extent,
    found: &mut Option<Fault>,
) -> Result<(), Faulty>
    ensures { Checks (Faults.reads_torn (reverse live.now) tag extent.now.addr extent.now.len) result found.new }
{
    match first_torn(live, tag, extent) {
        Some(k) => refuse(
            found,
            Fault::TornRead {
                at: extent.addr() + u64::from(k),
            },
        ),
        None => Ok(()),
    }
}

/// Each byte of a load, an LR or an AMO has a Read.
pub fn check_missing(
    live: &[OpenReport],
    tag: u64,
    what: &What,
    found: &mut Option<Fault>,
) -> Result<(), Faulty>
    ensures { Checks (Faults.missing_fault_of (reverse live.now) tag (doing_seen what.now)) result found.new }
{
    match what {
        What::Load(_, extent) | What::Lr(_, extent) | What::Amo(_, extent) => {
            check_present(live, tag, extent, found)
        }
        _ => Ok(()),
    }
}

/// The bytes of an aligned load, of an LR or of an AMO have one Read.
pub fn check_torn(
    live: &[OpenReport],
    tag: u64,
    what: &What,
    found: &mut Option<Fault>,
) -> Result<(), Faulty>
    ensures { Checks (Faults.torn_fault_of (reverse live.now) tag (doing_seen what.now)) result found.new }
{
    match what {
        What::Load(_, extent) if extent.addr() % u64::from(extent.len()) == 0 => {
            check_one(live, tag, extent, found)
        }
        What::Lr(_, extent) | What::Amo(_, extent) => check_one(live, tag, extent, found),
        _ => Ok(()),
    }
}

/// An AMO has an early Bypass.
pub fn check_bypass(
    bypass: &Option<OpenReport>,
    what: &What,
    found: &mut Option<Fault>,
) -> Result<(), Faulty>
    ensures { Checks (Faults.bypass_fault_of bypass.now (doing_seen what.now)) result found.new }
{
    match what {
        What::Amo(..) if bypass.is_none() => refuse(found, Fault::MissingBypass),
        _ => Ok(()),
    }
}

/// These bytes of a Bypass are the result's.
fn check_result(
    extent: &Extent,
    stored: &Piece,
    got: &Piece,
    found: &mut Option<Fault>,
) -> Result<(), Faulty>
    ensures { Checks (Faults.amo_fault_in extent.now.addr stored.now got.now
        (first_other (byte_in stored.now) (byte_in got.now) extent.now.addr extent.now.len)) result found.new }
{
    match first_different(stored, got, extent.addr(), extent.len()) {
        Some(k) => {
            let at = extent.addr() + u64::from(k);
            refuse(
                found,
                Fault::AmoData {
                    at,
                    want: byte_at(stored, at),
                    got: byte_at(got, at),
                },
            )
        }
        None => Ok(()),
    }
}

/// The Bypass of an AMO or SC has the bytes that the instruction stores.
#[tactic(auto, unfolding(crate::specs::RetireFaults::amo_fault_of))]
pub fn check_amo(
    what: &What,
    stored: &Option<Piece>,
    bypass: &Option<OpenReport>,
    found: &mut Option<Fault>,
) -> Result<(), Faulty>
    ensures { Checks (Faults.amo_fault_of (doing_seen what.now) stored.now bypass.now) result found.new }
{
    match (what, stored, bypass) {
        (What::Sc(_, extent) | What::Amo(_, extent), Some(stored), Some(bypass)) => {
            check_result(extent, stored, &bypass.piece, found)
        }
        _ => Ok(()),
    }
}

/// What is wanted of the register that the model writes.
fn want_of(what: &What, stored: bool, clocks: &Clocks, rd: RdValue) -> RdWant
    ensures { result ≡ Faults.want_of (doing_seen what.now) stored clocks.now rd }
{
    match what {
        What::Counter(insn) => RdWant::AtLeast(RdValue {
            number: rd.number,
            value: clocks.at(insn),
        }),
        What::Sc(..) if !stored => RdWant::Nonzero(rd.number),
        _ => RdWant::Value(rd),
    }
}

/// What is wanted of the register that the model writes, if it writes one.
pub fn rd_want(what: &What, stored: bool, clocks: &Clocks, rd: Option<RdValue>) -> RdWant
    ensures { result ≡ Faults.rd_want_of (doing_seen what.now) stored clocks.now rd }
{
    match rd {
        Some(rd) => want_of(what, stored, clocks, rd),
        None => RdWant::Absent,
    }
}

/// Whether these bytes are all among those of the LR.
fn is_in_pair(extent: &Extent, pair: &Option<Pair>) -> bool
    ensures { result ≡ Faults.is_in_pair extent.now.addr extent.now.len pair.now }
{
    match pair {
        Some(pair) => {
            pair.addr <= extent.addr()
                && u128::from(extent.addr()) + u128::from(extent.len())
                    <= u128::from(pair.addr) + u128::from(pair.len)
        }
        None => false,
    }
}

/// A successful SC has a pair, which has its bytes.
pub fn check_pair(
    pair: &Option<Pair>,
    stored: bool,
    what: &What,
    found: &mut Option<Fault>,
) -> Result<(), Faulty>
    ensures { Checks (Faults.pair_fault_of pair.now stored (doing_seen what.now)) result found.new }
{
    match what {
        What::Sc(_, extent) if stored && !is_in_pair(extent, pair) => refuse(found, Fault::ScPair),
        _ => Ok(()),
    }
}
