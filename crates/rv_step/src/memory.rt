//! The values that loads, stores and atomic instructions read and write.

ghost use Rattle.elf_image.specs.Images.{loaded_of};
ghost use Rattle.std.specs.Prelude.{◌≡◌, ◌<◌, ◌≤◌, ◌^◌, ◌%◌, MatchResult, Some, None, true};
ghost use Rattle.rv_step.specs.Memory.{load_size, store_size, atomic_size, atomic_width, load_result};
ghost use Rattle.rv_step.specs.Memory.{low_bytes, amo_of};
ghost use Rattle.rv_step.specs.Harts.{HartState};
ghost use Rattle.rv_step.specs.Integers.{less_signed};
ghost use Rattle.rv_step.specs.Plans.{access_fault, access_size, address_of, doing_seen, fault_cause, has_bytes};
ghost use Rattle.rv_step.specs.Plans.{is_access};
ghost use Rattle.rv_step.specs.Plans.{misaligned_cause, must_align, undertaken};
ghost use Rattle.tandem_base.specs.Signs.{sign_extended};

use crate::causes::{LOAD_FAULT, MISALIGNED_LOAD, MISALIGNED_STORE, STORE_FAULT};
use crate::integers::{is_less, is_less32, low};
use crate::plan::{Config, What};
use elf_image::Image;
use rv_decode::{AmoOp, Insn, LoadOp, StoreOp};
use tandem_base::{Bytes8, Extent, sext};

/// How many bytes a load reads.
pub fn bytes_loaded(op: LoadOp) -> u8
    ensures value { result ≡ load_size op }
    ensures sized { (1 ≤ result) × (result ≤ 8) }
{
    match op {
        LoadOp::Lb | LoadOp::Lbu => 1,
        LoadOp::Lh | LoadOp::Lhu => 2,
        LoadOp::Lw | LoadOp::Lwu => 4,
        LoadOp::Ld => 8,
    }
}

/// How many bytes a store writes.
pub fn bytes_stored(op: StoreOp) -> u8
    ensures value { result ≡ store_size op }
    ensures sized { (1 ≤ result) × (result ≤ 8) }
{
    match op {
        StoreOp::Sb => 1,
        StoreOp::Sh => 2,
        StoreOp::Sw => 4,
        StoreOp::Sd => 8,
    }
}

/// How many bytes an atomic instruction works on.
pub fn bytes_atomic(wide: bool) -> u8
    ensures value { result ≡ atomic_size wide }
    ensures sized { (1 ≤ result) × (result ≤ 8) }
{
    if wide { 8 } else { 4 }
}

/// What a load gives of the number that it reads.
pub fn load_value(op: LoadOp, number: u64) -> u64
    ensures { result ≡ load_result op number }
{
    match op {
        LoadOp::Lb => sext(number, 8),
        LoadOp::Lh => sext(number, 16),
        LoadOp::Lw => sext(number, 32),
        LoadOp::Ld | LoadOp::Lbu | LoadOp::Lhu | LoadOp::Lwu => number,
    }
}

/// The low `len` bytes of a value.
pub fn stored_bytes(value: u64, len: u8) -> Bytes8
    requires { (1 ≤ len) × (len ≤ 8) }
    ensures { result ≡ low_bytes value len }
{
    match Bytes8::new(&value.to_le_bytes()[..len as usize]) {
        Some(bytes) => bytes,
        None => unreachable!(),
    }
}

/// What LR gives of the number that it reads: the W form sign-extends.
pub fn lr_value(wide: bool, number: u64) -> u64
    ensures { result ≡ sign_extended (atomic_width wide) number }
{
    if wide { number } else { sext(number, 32) }
}

/// What an atomic operation gives of the number that it reads.
pub fn amo_value(wide: bool, number: u64) -> u64
    ensures { result ≡ sign_extended (atomic_width wide) (number % 2 ^ atomic_width wide) }
{
    if wide { number } else { sext(number, 32) }
}

/// What an atomic operation stores, of the number that it reads and of rs2.
pub fn amo_result(op: AmoOp, wide: bool, number: u64, source: u64) -> u64
    ensures { result ≡ amo_of op (atomic_width wide) (number % 2 ^ atomic_width wide) (source % 2 ^ atomic_width wide) }
{
    let (a, b) = (in_width(wide, number), in_width(wide, source));
    match op {
        AmoOp::Swap => b,
        AmoOp::Add => in_width(wide, a.wrapping_add(b)),
        AmoOp::Xor => a ^ b,
        AmoOp::And => a & b,
        AmoOp::Or => a | b,
        AmoOp::Min => if is_less_in(wide, b, a) { b } else { a },
        AmoOp::Max => if is_less_in(wide, a, b) { b } else { a },
        AmoOp::Minu => if b < a { b } else { a },
        AmoOp::Maxu => if a < b { b } else { a },
    }
}

/// The bits of a value that an atomic instruction works on.
fn in_width(wide: bool, value: u64) -> u64
    ensures { result ≡ value % 2 ^ atomic_width wide }
{
    if wide { value } else { u64::from(low(value)) }
}

/// Whether one of two such numbers is below the other, both with a sign.
fn is_less_in(wide: bool, a: u64, b: u64) -> bool
    requires a { a < 2 ^ atomic_width wide }
    requires b { b < 2 ^ atomic_width wide }
    ensures { result ≡ less_signed (atomic_width wide) a b }
{
    if wide {
        is_less(a, b)
    } else {
        is_less32(low(a), low(b))
    }
}

/// How many bytes an access covers.
pub fn access_len(insn: &Insn) -> u8
    requires { is_access insn.now ≡ true }
    ensures value { result ≡ access_size insn.now }
    ensures sized { (1 ≤ result) × (result ≤ 8) }
{
    match *insn {
        Insn::Load { op, .. } => bytes_loaded(op),
        Insn::Store { op, .. } => bytes_stored(op),
        Insn::Lr { wide, .. } | Insn::Sc { wide, .. } | Insn::Amo { wide, .. } => {
            bytes_atomic(wide)
        }
        _ => unreachable!(),
    }
}

/// Whether it has to be aligned.
pub fn must_align(config: &Config, insn: &Insn) -> bool
    ensures { result ≡ must_align config.now insn.now }
{
    match *insn {
        Insn::Load { .. } | Insn::Store { .. } => config.traps_misaligned,
        _ => true,
    }
}

/// The causes that it may raise.
pub fn causes_of(insn: &Insn) -> Causes
    ensures misaligned { result.misaligned ≡ misaligned_cause insn.now }
    ensures fault { result.fault ≡ fault_cause insn.now }
{
    match *insn {
        Insn::Load { .. } | Insn::Lr { .. } => Causes {
            misaligned: MISALIGNED_LOAD,
            fault: LOAD_FAULT,
        },
        _ => Causes {
            misaligned: MISALIGNED_STORE,
            fault: STORE_FAULT,
        },
    }
}

/// An access that raises no cause.
pub fn undertaken(insn: Insn, extent: Extent) -> What
    requires access { is_access insn ≡ true }
    requires len { extent.len ≡ access_size insn }
    ensures { (hart : HartState) → extent.addr ≡ address_of hart insn → doing_seen result ≡ undertaken hart insn }
{
    match insn {
        Insn::Load { .. } => What::Load(insn, extent),
        Insn::Store { .. } => What::Store(insn, extent),
        Insn::Lr { .. } => What::Lr(insn, extent),
        Insn::Sc { .. } => What::Sc(insn, extent),
        Insn::Amo { .. } => What::Amo(insn, extent),
        _ => unreachable!(),
    }
}

/// The causes that an access may raise.
#[derive(Clone, Copy, Debug, PartialEq, Eq)]
pub struct Causes {
    /// Where it has to be aligned and isn't.
    pub misaligned: u8,
    /// Where a byte is outside the image.
    pub fault: u8,
}

/// The bytes that an access covers, or the cause that it raises: `misaligned` where it must be
/// aligned and isn't, and then `fault` where a byte is outside the image.
pub fn access(
    image: &Image,
    must_align: bool,
    causes: Causes,
    addr: u64,
    len: u8,
) -> Result<Extent, u8>
    requires { (1 ≤ len) × (len ≤ 8) }
    ensures { MatchResult result
        (λ extent. (access_fault (loaded_of image.now) must_align causes.misaligned causes.fault addr len ≡ None)
        × (extent.addr ≡ addr) × (extent.len ≡ len))
        (λ cause. access_fault (loaded_of image.now) must_align causes.misaligned causes.fault addr len ≡ Some cause) }
{
    if must_align && addr % u64::from(len) != 0 {
        return Err(causes.misaligned);
    }
    let Some(extent) = Extent::new(addr, len) else {
        return Err(causes.fault);
    };
    if holds(image, extent) {
        Ok(extent)
    } else {
        Err(causes.fault)
    }
}

/// Whether the image has every byte of the extent.
fn holds(image: &Image, extent: Extent) -> bool
    ensures { result ≡ has_bytes (loaded_of image.now) extent.addr extent.len }
{
    image.holds(&extent)
}
