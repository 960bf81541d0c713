//! The values that a fault tells, put into a line.

ghost use Rattle.std.specs.Prelude.{◌+◌, ◌≤◌, length};
ghost use Rattle.verdict_report.specs.FaultValues.{fault_value_text};
ghost use Rattle.verdict_report.specs.Lines.{csr_value_text, rd_value_text, rd_want_text, register_text};
ghost use Rattle.verdict_report.specs.Lines.{byte_text};
ghost use Rattle.tandem_base.specs.Puts.{Puts};

use super::fault::RdWant;
use msg_frames::{CsrValue, RdValue};
use numerals::{put_decimal, put_decimal_or_dash, put_hexadecimal};
use tandem_base::put;

/// A value that a fault tells.
#[derive(Clone, Copy)]
pub enum FaultValue {
    /// A number, in hexadecimal.
    Number(u64),
    /// The cause of a trap.
    Cause(Option<u8>),
    /// What is wanted of a register.
    RdWant(RdWant),
    /// A register with its value.
    Rd(Option<RdValue>),
    /// A CSR with its value.
    Csr(Option<CsrValue>),
    /// A byte of memory.
    Byte(Option<u8>),
}

// Puts the name of a register and a colon.
fn put_register(out: &mut [u8], at: usize, number: u8) -> usize
    requires { at + 5 ≤ length out.old }
    ensures puts { Puts at out.old result out.new (register_text number) }
    ensures bound { result ≤ at + 5 }
{
    let end = put(out, at, b"x");
    let end = put_decimal(out, end, number);
    put(out, end, b":")
}

// Puts a register and its value.
fn put_rd(out: &mut [u8], at: usize, rd: Option<RdValue>) -> usize
    requires { at + 23 ≤ length out.old }
    ensures puts { Puts at out.old result out.new (rd_value_text rd) }
    ensures bound { result ≤ at + 23 }
{
    match rd {
        None => put(out, at, b"-"),
        Some(rd) => {
            let end = put_register(out, at, rd.number);
            put_hexadecimal(out, end, rd.value)
        }
    }
}

// Puts a register and the values that are wanted of it.
fn put_rd_want(out: &mut [u8], at: usize, want: RdWant) -> usize
    requires { at + 31 ≤ length out.old }
    ensures puts { Puts at out.old result out.new (rd_want_text want) }
    ensures bound { result ≤ at + 31 }
{
    match want {
        RdWant::Absent => put(out, at, b"-"),
        RdWant::Value(rd) => put_rd(out, at, Some(rd)),
        RdWant::Nonzero(number) => {
            let end = put_register(out, at, number);
            put(out, end, b"nonzero")
        }
        RdWant::AtLeast(rd) => {
            let end = put_register(out, at, rd.number);
            let end = put(out, end, b"atleast:");
            put_hexadecimal(out, end, rd.value)
        }
    }
}

// Puts the number and the value of a CSR.
fn put_csr(out: &mut [u8], at: usize, csr: Option<CsrValue>) -> usize
    requires { at + 37 ≤ length out.old }
    ensures puts { Puts at out.old result out.new (csr_value_text csr) }
    ensures bound { result ≤ at + 37 }
{
    match csr {
        None => put(out, at, b"-"),
        Some(csr) => {
            let end = put_hexadecimal(out, at, u64::from(csr.number));
            let end = put(out, end, b":");
            put_hexadecimal(out, end, csr.value)
        }
    }
}

// Puts a byte of memory.
fn put_byte(out: &mut [u8], at: usize, byte: Option<u8>) -> usize
    requires { at + 18 ≤ length out.old }
    ensures puts { Puts at out.old result out.new (byte_text byte) }
    ensures bound { result ≤ at + 18 }
{
    match byte {
        None => put(out, at, b"-"),
        Some(byte) => put_hexadecimal(out, at, u64::from(byte)),
    }
}

/// Puts a value that a fault tells.
pub fn put_fault_value(out: &mut [u8], at: usize, value: FaultValue) -> usize
    requires { at + 37 ≤ length out.old }
    ensures puts { Puts at out.old result out.new (fault_value_text value) }
    ensures bound { result ≤ at + 37 }
{
    match value {
        FaultValue::Number(number) => put_hexadecimal(out, at, number),
        FaultValue::Cause(cause) => put_decimal_or_dash(out, at, cause),
        FaultValue::RdWant(want) => put_rd_want(out, at, want),
        FaultValue::Rd(rd) => put_rd(out, at, rd),
        FaultValue::Csr(csr) => put_csr(out, at, csr),
        FaultValue::Byte(byte) => put_byte(out, at, byte),
    }
}
