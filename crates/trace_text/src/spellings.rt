//! The values that texts spell.

ghost use Rattle.std.specs.Prelude.{◌≡◌, ◌<◌, ◌≤◌, ◌*◌, false, true, length, IfSome, MatchOption};
ghost use Rattle.hex.specs.Hex.{encode_lower};
ghost use Rattle.msg_frames.specs.Frames.{is_poked_csr};
ghost use Rattle.msg_frames.specs.Reading.{is_stray_byte};
ghost use Rattle.trace_text.specs.Values.{is_text, between, multiple, target_word, poked_value_in, bytes_in};
ghost use Rattle.trace_text.specs.Values.{piece_bytes_in, is_masked, line_bytes_in, trap_word, register_in, rd_word};
ghost use Rattle.trace_text.specs.Values.{csr_in, some_csrs_in, csrs_word};

use super::words::parted;
use msg_frames::{CsrList, CsrValue, RdValue, Target};
use numerals::{read_decimal, read_hexadecimal};
use tandem_base::Bytes8;
use tandem_base::csrs::{MCAUSE, MEPC, MIE, MSCRATCH, MSTATUS, MTVAL, MTVEC};

/// Whether the text is this one.
pub(crate) fn is_text(text: &[u8], wanted: &[u8]) -> bool
    ensures { result ≡ is_text text.now wanted.now }
{
    text == wanted
}

/// The number from `least` to `most` that the text spells in decimal.
pub(crate) fn between(text: &[u8], least: u64, most: u64) -> Option<u64>
    ensures value { result ≡ between least most text.now }
    ensures low { IfSome result (λ n. least ≤ n) }
    ensures high { IfSome result (λ n. n ≤ most) }
{
    match read_decimal(text, most) {
        Some(n) => { if least <= n { Some(n) } else { None } }
        None => None,
    }
}

/// The multiple of `unit` that the text spells in hexadecimal.
pub(crate) fn multiple(text: &[u8], unit: u64) -> Option<u64>
    requires { 1 ≤ unit }
    ensures { result ≡ multiple unit text.now }
{
    match read_hexadecimal(text, u64::MAX) {
        Some(n) => { if n % unit == 0 { Some(n) } else { None } }
        None => None,
    }
}

/// What a Poke sets.
pub(crate) fn target(text: &[u8]) -> Option<Target>
    ensures { result ≡ target_word text.now }
{
    if is_text(text, b"pc") {
        return Some(Target::Pc);
    }
    if text.starts_with(b"x") {
        return match between(&text[1..], 1, 31) {
            Some(number) => Some(Target::X(number as u8)),
            None => None,
        };
    }
    match read_hexadecimal(text, 65535) {
        Some(number) => {
            if is_poked_csr(number as u16) {
                Some(Target::Csr(number as u16))
            } else {
                None
            }
        }
        None => None,
    }
}

// Whether a Poke may set the CSR of this number.
fn is_poked_csr(number: u16) -> bool
    ensures { result ≡ is_poked_csr number }
{
    matches!(
        number,
        MSTATUS | MIE | MTVEC | MSCRATCH | MEPC | MCAUSE | MTVAL
    )
}

/// The value of what a Poke sets.
pub(crate) fn poked_value(text: &[u8], target: Target) -> Option<u64>
    ensures { result ≡ poked_value_in target text.now }
{
    match target {
        Target::Pc => multiple(text, 4),
        Target::X(_) | Target::Csr(_) => read_hexadecimal(text, u64::MAX),
    }
}

/// One to eight bytes.
pub(crate) fn piece_bytes(text: &[u8]) -> Option<Bytes8>
    ensures { result ≡ piece_bytes_in text.now }
{
    let count = text.len() / 2;
    if count < 1 || 8 < count {
        return None;
    }
    let mut held = [0; 8];
    piece_bytes_over(text, &mut held[..count])
}

// The bytes, over so many lent ones.
fn piece_bytes_over(text: &[u8], held: &mut [u8]) -> Option<Bytes8>
    requires some { 1 ≤ length held.old }
    requires few { length held.old ≤ 8 }
    ensures { result ≡ bytes_in (length held.old) text.now }
{
    if read_bytes(text, held) {
        Bytes8::new(held)
    } else {
        None
    }
}

/// The 64 bytes of a line, 0 outside the mask.
pub(crate) fn line_bytes(text: &[u8], mask: u64) -> Option<[u8; 64]>
    ensures { result ≡ line_bytes_in mask text.now }
{
    let mut held = [0; 64];
    if read_bytes(text, &mut held) && is_masked(mask, &held) {
        Some(held)
    } else {
        None
    }
}

// Puts the bytes that the text spells over the lent ones, if it spells so many.
fn read_bytes(text: &[u8], held: &mut [u8]) -> bool
    requires { length held.old ≤ 64 }
    ensures read { MatchOption (bytes_in (length held.old) text.now)
        (result ≡ false) (λ bytes. (result ≡ true) × (held.new ≡ bytes)) }
    ensures same { length held.new ≡ length held.old }
{
    match hex::decode_to_slice(text, held) {
        Ok(()) => is_written(text, held),
        Err(_) => false,
    }
}

// Whether the text is how the bytes are written.
fn is_written(text: &[u8], bytes: &[u8]) -> bool
    requires { length bytes.now ≤ 64 }
    ensures { result ≡ is_text text.now (encode_lower bytes.now) }
{
    let mut written = [0; 128];
    let count = 2 * bytes.len();
    is_written_over(text, bytes, &mut written[..count])
}

// The same, over lent bytes for the digits.
fn is_written_over(text: &[u8], bytes: &[u8], written: &mut [u8]) -> bool
    requires { length written.old ≡ 2 * length bytes.now }
    ensures { result ≡ is_text text.now (encode_lower bytes.now) }
{
    let Ok(()) = hex::encode_to_slice(bytes, written) else {
        unreachable!()
    };
    is_text(text, written)
}

// Whether the bytes of a line are 0 outside the mask.
fn is_masked(mask: u64, bytes: &[u8]) -> bool
    requires { length bytes.now ≤ 64 }
    ensures { result ≡ is_masked mask bytes.now }
{
    for (k, byte) in bytes.iter().enumerate() {
        if is_stray(mask, k as u8, *byte) {
            return false;
        }
    }
    true
}

// Whether byte `k` of a line is outside the mask, and not 0.
fn is_stray(mask: u64, k: u8, byte: u8) -> bool
    requires { k < 64 }
    ensures { result ≡ is_stray_byte mask k byte }
{
    (mask >> k) % 2 == 0 && byte != 0
}

/// No trap, or its cause.
pub(crate) fn trap(text: &[u8]) -> Option<Option<u8>>
    ensures { result ≡ trap_word text.now }
{
    if is_text(text, b"-") {
        return Some(None);
    }
    match between(text, 0, 255) {
        Some(cause) => Some(Some(cause as u8)),
        None => None,
    }
}

/// No register, or the one that was written with its value.
pub(crate) fn rd(text: &[u8]) -> Option<Option<RdValue>>
    ensures { result ≡ rd_word text.now }
{
    if is_text(text, b"-") {
        return Some(None);
    }
    if !text.starts_with(b"x") {
        return None;
    }
    match register(&text[1..]) {
        Some(rd) => Some(Some(rd)),
        None => None,
    }
}

// A register and its value, behind the `x`.
fn register(text: &[u8]) -> Option<RdValue>
    ensures { result ≡ register_in text.now }
{
    let (number, value) = parted(text, b':');
    let Some(number) = between(number, 1, 31) else {
        return None;
    };
    match read_hexadecimal(value, u64::MAX) {
        Some(value) => Some(RdValue {
            number: number as u8,
            value,
        }),
        None => None,
    }
}

// A CSR and its value.
fn csr(text: &[u8]) -> Option<CsrValue>
    ensures { result ≡ csr_in text.now }
{
    let (number, value) = parted(text, b':');
    let Some(number) = read_hexadecimal(number, 65535) else {
        return None;
    };
    match read_hexadecimal(value, u64::MAX) {
        Some(value) => Some(CsrValue {
            number: number as u16,
            value,
        }),
        None => None,
    }
}

/// No CSRs, or one to four.
pub(crate) fn csrs(text: &[u8]) -> Option<CsrList>
    ensures { result ≡ csrs_word text.now }
{
    if is_text(text, b"-") {
        return Some(CsrList::new());
    }
    some_csrs(text)
}

// One to four CSRs with commas between them.
fn some_csrs(text: &[u8]) -> Option<CsrList>
    ensures { result ≡ some_csrs_in 4 text.now }
{
    let mut list = CsrList::new();
    let mut rest = text;
    for _ in 0..4usize {
        let (first, others) = parted(rest, b',');
        let Some(csr) = csr(first) else {
            return None;
        };
        list.push(csr);
        if first.len() == rest.len() {
            return Some(list);
        }
        rest = others;
    }
    None
}
