//! The parts of a line that tell a fault.

ghost use Rattle.std.specs.Prelude.{◌≡◌, ◌+◌, ◌≤◌, ◌++◌, codes, length};
ghost use Rattle.std.specs.Fmt.{decimal};
ghost use Rattle.verdict_report.specs.Lines.{detail_of, differ, form_text, byte_differs, at_text, origin_text};
ghost use Rattle.verdict_report.specs.Lines.{operation_text};
ghost use Rattle.verdict_report.specs.FaultValues.{fault_value_text};
ghost use Rattle.numerals.specs.Numerals.{hexadecimal};
ghost use Rattle.tandem_base.specs.Puts.{Puts};

use super::fault::{Fault, RdWant};
use super::fault_values::{FaultValue, put_fault_value};
use msg_frames::{CsrValue, Form, RdValue};
use numerals::{put_decimal, put_hexadecimal};
use tandem_base::{OpName, Origin, put};

// The name of a form.
fn form_name(form: Form) -> &'static [u8]
    ensures name { result.now ≡ form_text form }
    ensures bound { length result.now ≤ 8 }
{
    match form {
        Form::Length => b"Length",
        Form::Kind => b"Kind",
        Form::Reserved => b"Reserved",
        Form::Field => b"Field",
    }
}

// Puts how a frame breaks the grammar.
fn put_form(out: &mut [u8], at: usize, form: Form) -> usize
    requires { at + 14 ≤ length out.old }
    ensures puts { Puts at out.old result out.new (detail_of (Fault.BadFrame form)) }
    ensures bound { result ≤ at + 14 }
{
    let end = put(out, at, b" form=");
    put(out, end, form_name(form))
}

// Puts how many bytes of a frame came.
fn put_have(out: &mut [u8], at: usize, have: u16) -> usize
    requires { at + 11 ≤ length out.old }
    ensures puts { Puts at out.old result out.new (detail_of (Fault.Truncated have)) }
    ensures bound { result ≤ at + 11 }
{
    let end = put(out, at, b" have=");
    put_decimal(out, end, have)
}

// Puts the last value that a fault tells.
fn put_last(out: &mut [u8], at: usize, last: u64) -> usize
    requires { at + 26 ≤ length out.old }
    ensures puts { Puts at out.old result out.new (codes " last=" ++ decimal last) }
    ensures bound { result ≤ at + 26 }
{
    let end = put(out, at, b" last=");
    put_decimal(out, end, last)
}

// Puts the tag of a Bypass.
fn put_bypass(out: &mut [u8], at: usize, tag: u64) -> usize
    requires { at + 28 ≤ length out.old }
    ensures puts { Puts at out.old result out.new (detail_of (Fault.StrayBypass tag)) }
    ensures bound { result ≤ at + 28 }
{
    let end = put(out, at, b" bypass=");
    put_decimal(out, end, tag)
}

// Puts two values that differ: the reference model's, then the reported one.
fn put_differing(out: &mut [u8], at: usize, want: FaultValue, got: FaultValue) -> usize
    requires { at + 85 ≤ length out.old }
    ensures puts { Puts at out.old result out.new (differ (fault_value_text want) (fault_value_text got)) }
    ensures bound { result ≤ at + 85 }
{
    let end = put(out, at, b" want=");
    let end = put_fault_value(out, end, want);
    let end = put(out, end, b" got=");
    put_fault_value(out, end, got)
}

// Puts two numbers that differ.
fn put_numbers(out: &mut [u8], at: usize, want: u64, got: u64) -> usize
    requires { at + 85 ≤ length out.old }
    ensures puts { Puts at out.old result out.new (differ (hexadecimal want) (hexadecimal got)) }
    ensures bound { result ≤ at + 85 }
{
    put_differing(out, at, FaultValue::Number(want), FaultValue::Number(got))
}

// Puts two causes of traps that differ.
fn put_causes(out: &mut [u8], at: usize, want: Option<u8>, got: Option<u8>) -> usize
    requires { at + 85 ≤ length out.old }
    ensures puts { Puts at out.old result out.new (detail_of (Fault.Trap want got)) }
    ensures bound { result ≤ at + 85 }
{
    put_differing(out, at, FaultValue::Cause(want), FaultValue::Cause(got))
}

// Puts two registers that differ.
fn put_rds(out: &mut [u8], at: usize, want: RdWant, got: Option<RdValue>) -> usize
    requires { at + 85 ≤ length out.old }
    ensures puts { Puts at out.old result out.new (detail_of (Fault.Rd want got)) }
    ensures bound { result ≤ at + 85 }
{
    put_differing(out, at, FaultValue::RdWant(want), FaultValue::Rd(got))
}

// Puts two CSRs that differ, with their place in the lists.
fn put_csrs(
    out: &mut [u8],
    at: usize,
    index: u8,
    want: Option<CsrValue>,
    got: Option<CsrValue>,
) -> usize
    requires { at + 107 ≤ length out.old }
    ensures puts { Puts at out.old result out.new (detail_of (Fault.Csr index want got)) }
    ensures bound { result ≤ at + 107 }
{
    let end = put(out, at, b" index=");
    let end = put_decimal(out, end, index);
    put_differing(out, end, FaultValue::Csr(want), FaultValue::Csr(got))
}

// Puts the address of a byte.
fn put_address(out: &mut [u8], at: usize, addr: u64) -> usize
    requires { at + 22 ≤ length out.old }
    ensures puts { Puts at out.old result out.new (at_text addr) }
    ensures bound { result ≤ at + 22 }
{
    let end = put(out, at, b" at=");
    put_hexadecimal(out, end, addr)
}

// Puts a byte that differs, with its address.
fn put_byte_differs(
    out: &mut [u8],
    at: usize,
    addr: u64,
    want: Option<u8>,
    got: Option<u8>,
) -> usize
    requires { at + 107 ≤ length out.old }
    ensures puts { Puts at out.old result out.new (byte_differs addr want got) }
    ensures bound { result ≤ at + 107 }
{
    let end = put_address(out, at, addr);
    put_differing(out, end, FaultValue::Byte(want), FaultValue::Byte(got))
}

// Puts the name of an instruction.
fn put_origin(out: &mut [u8], at: usize, origin: Origin) -> usize
    requires { at + 24 ≤ length out.old }
    ensures puts { Puts at out.old result out.new (origin_text origin) }
    ensures bound { result ≤ at + 24 }
{
    let end = put_decimal(out, at, origin.hart);
    let end = put(out, end, b":");
    put_decimal(out, end, origin.tag)
}

// Puts the name of a memory operation.
fn put_operation(out: &mut [u8], at: usize, name: OpName) -> usize
    requires { at + 28 ≤ length out.old }
    ensures puts { Puts at out.old result out.new (operation_text name) }
    ensures bound { result ≤ at + 28 }
{
    let end = put_decimal(out, at, name.hart);
    let end = put(out, end, b":");
    let end = put_decimal(out, end, name.tag);
    let end = put(out, end, b".");
    put_decimal(out, end, name.part)
}

// Puts a rule and the two operations that it orders.
fn put_order(out: &mut [u8], at: usize, rule: u8, first: OpName, second: OpName) -> usize
    requires { at + 80 ≤ length out.old }
    ensures puts { Puts at out.old result out.new (detail_of (Fault.Order rule first second)) }
    ensures bound { result ≤ at + 80 }
{
    let end = put(out, at, b" rule=");
    let end = put_decimal(out, end, rule);
    let end = put(out, end, b" first=");
    let end = put_operation(out, end, first);
    let end = put(out, end, b" second=");
    put_operation(out, end, second)
}

// Puts the byte of an SC, and the store of another hart.
fn put_atomicity(out: &mut [u8], at: usize, addr: u64, store: Origin) -> usize
    requires { at + 60 ≤ length out.old }
    ensures puts { Puts at out.old result out.new (detail_of (Fault.Atomicity addr store)) }
    ensures bound { result ≤ at + 60 }
{
    let end = put_address(out, at, addr);
    let end = put(out, end, b" store=");
    put_origin(out, end, store)
}

// Puts a store, and its byte that isn't performed.
fn put_unwritten(out: &mut [u8], at: usize, store: Origin, addr: u64) -> usize
    requires { at + 60 ≤ length out.old }
    ensures puts { Puts at out.old result out.new (detail_of (Fault.Unwritten store addr)) }
    ensures bound { result ≤ at + 60 }
{
    let end = put(out, at, b" store=");
    let end = put_origin(out, end, store);
    put_address(out, end, addr)
}

// Puts an early Bypass that has not retired.
fn put_unretired(out: &mut [u8], at: usize, bypass: Origin) -> usize
    requires { at + 32 ≤ length out.old }
    ensures puts { Puts at out.old result out.new (detail_of (Fault.Unretired bypass)) }
    ensures bound { result ≤ at + 32 }
{
    let end = put(out, at, b" bypass=");
    put_origin(out, end, bypass)
}

/// Puts what a line tells of a fault beside its number and name.
pub fn put_detail(out: &mut [u8], from: usize, fault: &Fault) -> usize
    requires { from + 107 ≤ length out.old }
    ensures puts { Puts from out.old result out.new (detail_of fault.now) }
    ensures bound { result ≤ from + 107 }
{
    match *fault {
        Fault::BadFrame { form } => put_form(out, from, form),
        Fault::Truncated { have } => put_have(out, from, have),
        Fault::TimeBack { last } | Fault::LateTag { last } | Fault::TagOrder { last } => {
            put_last(out, from, last)
        }
        Fault::StoreData { at, want, got }
        | Fault::MergeMismatch { at, want, got }
        | Fault::AmoData { at, want, got }
        | Fault::LoadValue { at, want, got } => put_byte_differs(out, from, at, want, got),
        Fault::StrayBypass { bypass } => put_bypass(out, from, bypass),
        Fault::Pc { want, got } | Fault::NextPc { want, got } => put_numbers(out, from, want, got),
        Fault::Word { want, got } => put_numbers(out, from, u64::from(want), u64::from(got)),
        Fault::Trap { want, got } => put_causes(out, from, want, got),
        Fault::MissingRead { at } | Fault::TornRead { at } => put_address(out, from, at),
        Fault::Rd { want, got } => put_rds(out, from, want, got),
        Fault::Csr { index, want, got } => put_csrs(out, from, index, want, got),
        Fault::Order {
            rule,
            first,
            second,
        } => put_order(out, from, rule, first, second),
        Fault::Atomicity { at, store } => put_atomicity(out, from, at, store),
        Fault::Unwritten { store, at } => put_unwritten(out, from, store, at),
        Fault::Unretired { bypass } => put_unretired(out, from, bypass),
        Fault::BadOpen | Fault::BadHart | Fault::BadRange | Fault::LatePoke => put(out, from, b""),
        Fault::UnknownStore | Fault::TornStore | Fault::MissingBypass => put(out, from, b""),
        Fault::ScPair => put(out, from, b""),
    }
}
