//! The values of fields, put into a buffer.

ghost use Rattle.std.specs.Prelude.{◌≡◌, ◌+◌, ◌-◌, ◌*◌, ◌<◌, ◌≤◌, length, drop};
ghost use Rattle.std.specs.Fmt.{decimal};
ghost use Rattle.std.specs.List.{flat_map};
ghost use Rattle.hex.specs.Hex.{encode_lower};
ghost use Rattle.numerals.specs.Numerals.{hexadecimal};
ghost use Rattle.tandem_base.specs.Puts.{Puts};
ghost use Rattle.trace_text.specs.Lines.{target_text, rd_text, csr_text, next_csr_text, csrs_text};

use msg_frames::{CsrList, CsrValue, RdValue, Target};
use numerals::{put_decimal, put_hexadecimal};
use tandem_base::put;

/// Puts what a Poke sets.
pub(crate) fn put_target(out: &mut [u8], at: usize, target: Target) -> usize
    requires { at + 18 ≤ length out.old }
    ensures puts { Puts at out.old result out.new (target_text target) }
    ensures bound { result ≤ at + 18 }
{
    match target {
        Target::Pc => put(out, at, b"pc"),
        Target::X(number) => {
            let end = put(out, at, b"x");
            put_decimal(out, end, number)
        }
        Target::Csr(number) => put_hexadecimal(out, at, u64::from(number)),
    }
}

/// Puts the register that was written.
pub(crate) fn put_rd(out: &mut [u8], at: usize, rd: Option<RdValue>) -> usize
    requires { at + 23 ≤ length out.old }
    ensures puts { Puts at out.old result out.new (rd_text rd) }
    ensures bound { result ≤ at + 23 }
{
    match rd {
        None => put(out, at, b"-"),
        Some(rd) => {
            let end = put(out, at, b"x");
            let end = put_decimal(out, end, rd.number);
            let end = put(out, end, b":");
            put_hexadecimal(out, end, rd.value)
        }
    }
}

/// Puts the CSRs that were written.
pub(crate) fn put_csrs(out: &mut [u8], at: usize, csrs: &CsrList) -> usize
    requires { at + 151 ≤ length out.old }
    ensures puts { Puts at out.old result out.new (csrs_text csrs.now) }
    ensures bound { result ≤ at + 151 }
{
    match csrs.get(0) {
        None => put(out, at, b"-"),
        Some(csr) => {
            let end = put_csr(out, at, csr);
            put_next_csrs(out, end, csrs)
        }
    }
}

// Puts the CSRs behind the first one.
fn put_next_csrs(out: &mut [u8], at: usize, csrs: &CsrList) -> usize
    requires room { at + 114 ≤ length out.old }
    requires some { 1 ≤ length csrs.now }
    ensures puts { Puts at out.old result out.new (flat_map next_csr_text (drop 1 csrs.now)) }
    ensures bound { result ≤ at + 114 }
{
    let mut end = at;
    for k in 1..csrs.len() {
        let Some(csr) = csrs.get(k) else {
            unreachable!()
        };
        end = put(out, end, b",");
        end = put_csr(out, end, csr);
    }
    end
}

// Puts the number and the value of a CSR.
fn put_csr(out: &mut [u8], at: usize, csr: CsrValue) -> usize
    requires { at + 37 ≤ length out.old }
    ensures puts { Puts at out.old result out.new (csr_text csr) }
    ensures bound { result ≤ at + 37 }
{
    let end = put_hexadecimal(out, at, u64::from(csr.number));
    let end = put(out, end, b":");
    put_hexadecimal(out, end, csr.value)
}

/// Puts the bytes, two digits each.
pub(crate) fn put_bytes(out: &mut [u8], at: usize, bytes: &[u8]) -> usize
    requires { at + 2 * length bytes.now ≤ length out.old }
    ensures puts { Puts at out.old result out.new (encode_lower bytes.now) }
    ensures ends { result ≡ at + 2 * length bytes.now }
{
    let end = at + 2 * bytes.len();
    encode(bytes, &mut out[at..end]);
    end
}

// Writes the bytes over lent bytes, two digits each.
fn encode(bytes: &[u8], out: &mut [u8])
    requires { length out.old ≡ 2 * length bytes.now }
    ensures text { out.new ≡ encode_lower bytes.now }
    ensures length { length (encode_lower bytes.now) ≡ 2 * length bytes.now }
{
    let Ok(()) = hex::encode_to_slice(bytes, out) else {
        unreachable!()
    };
}
