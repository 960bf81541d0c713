//! The line of a verdict.

ghost use Rattle.std.specs.Prelude.{◌≡◌, ◌+◌, ◌≤◌, length, take, drop};
ghost use Rattle.verdict_report.specs.Lines.{fault_text, head_text, limit_hart_text, limit_text};
ghost use Rattle.verdict_report.specs.Lines.{verdict_line, report_text};
ghost use Rattle.tandem_base.specs.Puts.{Puts};

use super::detail::put_detail;
use super::fault::Fault;
use super::verdict::{Limit, Report, Verdict};
use msg_frames::Head;
use numerals::put_decimal;
use tandem_base::put;

/// Puts the verdict's line, with its newline, at the front of `out` and answers its length. Every
/// line fits.
pub fn line(verdict: &Verdict, out: &mut [u8; 256]) -> usize
    ensures length { result ≡ length (verdict_line verdict.now) }
    ensures text { take result out.new ≡ verdict_line verdict.now }
    ensures fits { result ≤ 256 }
    ensures rest { drop result out.new ≡ drop result out.old }
{
    put_line(out, 0, verdict)
}

/// Puts the verdict's line, with its newline, at `at` and answers where it ends.
pub(crate) fn put_line(out: &mut [u8], at: usize, verdict: &Verdict) -> usize
    requires { at + 256 ≤ length out.old }
    ensures puts { Puts at out.old result out.new (verdict_line verdict.now) }
    ensures bound { result ≤ at + 256 }
{
    match *verdict {
        Verdict::Accept {
            messages,
            retired,
            operations,
        } => put_accept(out, at, messages, retired, operations),
        Verdict::Reject(report) => {
            let end = put_report(out, at, &report);
            put(out, end, b"\n")
        }
        Verdict::Undecided {
            message,
            limit,
            hart,
            count,
        } => put_undecided(out, at, message, limit, hart, count),
    }
}

// Puts the line of an acceptance.
fn put_accept(out: &mut [u8], at: usize, messages: u64, retired: u64, operations: u64) -> usize
    requires { at + 256 ≤ length out.old }
    ensures puts { Puts at out.old result out.new (verdict_line (Verdict.Accept messages retired operations)) }
    ensures bound { result ≤ at + 256 }
{
    let end = put(out, at, b"ACCEPT messages=");
    let end = put_decimal(out, end, messages);
    let end = put(out, end, b" retired=");
    let end = put_decimal(out, end, retired);
    let end = put(out, end, b" operations=");
    let end = put_decimal(out, end, operations);
    put(out, end, b"\n")
}

// Puts the line of a limit that was passed.
fn put_undecided(
    out: &mut [u8],
    at: usize,
    message: u64,
    limit: Limit,
    hart: u8,
    count: u64,
) -> usize
    requires { at + 256 ≤ length out.old }
    ensures puts { Puts at out.old result out.new (verdict_line (Verdict.Undecided message limit hart count)) }
    ensures bound { result ≤ at + 256 }
{
    let end = put(out, at, b"UNDECIDED message=");
    let end = put_decimal(out, end, message);
    let end = put(out, end, b" limit=");
    let end = put(out, end, limit_name(limit));
    let end = put(out, end, b" hart=");
    let end = put_limit_hart(out, end, limit, hart);
    let end = put(out, end, b" count=");
    let end = put_decimal(out, end, count);
    put(out, end, b"\n")
}

// The name of a limit.
fn limit_name(limit: Limit) -> &'static [u8]
    ensures name { result.now ≡ limit_text limit }
    ensures bound { length result.now ≤ 8 }
{
    match limit {
        Limit::Reads => b"READS",
        Limit::Stores => b"STORES",
        Limit::Kept => b"KEPT",
        Limit::Messages => b"MESSAGES",
    }
}

// Puts the hart whose count passed its limit.
fn put_limit_hart(out: &mut [u8], at: usize, limit: Limit, hart: u8) -> usize
    requires { at + 3 ≤ length out.old }
    ensures puts { Puts at out.old result out.new (limit_hart_text limit hart) }
    ensures bound { result ≤ at + 3 }
{
    match limit {
        Limit::Reads | Limit::Stores | Limit::Kept => put_decimal(out, at, hart),
        Limit::Messages => put(out, at, b"-"),
    }
}

// Puts where the report is, and what is wrong there.
fn put_report(out: &mut [u8], at: usize, report: &Report) -> usize
    requires { at + 255 ≤ length out.old }
    ensures puts { Puts at out.old result out.new (report_text report.now) }
    ensures bound { result ≤ at + 255 }
{
    let end = put(out, at, b"REJECT message=");
    let end = put_decimal(out, end, report.message);
    let end = put(out, end, b" offset=");
    let end = put_decimal(out, end, report.offset);
    let end = put_fault(out, end, &report.fault);
    let end = put_head(out, end, report.head);
    put_detail(out, end, &report.fault)
}

// Puts the number and the name of a fault.
fn put_fault(out: &mut [u8], at: usize, fault: &Fault) -> usize
    requires { at + 24 ≤ length out.old }
    ensures puts { Puts at out.old result out.new (fault_text fault.now) }
    ensures bound { result ≤ at + 24 }
{
    let end = put(out, at, b" fault=");
    let end = put_decimal(out, end, fault.number());
    let end = put(out, end, b" ");
    put(out, end, fault.name())
}

// Puts the hart and the tag of the message, where there is one.
fn put_head(out: &mut [u8], at: usize, head: Option<Head>) -> usize
    requires { at + 34 ≤ length out.old }
    ensures puts { Puts at out.old result out.new (head_text head) }
    ensures bound { result ≤ at + 34 }
{
    match head {
        None => put(out, at, b""),
        Some(head) => {
            let end = put(out, at, b" hart=");
            let end = put_decimal(out, end, head.hart);
            let end = put(out, end, b" tag=");
            put_decimal(out, end, head.tag)
        }
    }
}
