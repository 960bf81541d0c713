//! The operations of an access: its bytes, grouped by where each was performed.

ghost use Rattle.std.specs.Prelude.{◌≡◌, ◌++◌, ◌≤◌, length, OnOk, Some, true, if◌then◌else◌};
ghost use Rattle.trace_model.specs.Groups as Groups;
ghost use Rattle.trace_model.specs.Marks.{HasAtMost, eight, is_marked, place_in};

use super::access::Access;
use rvwmo_model::{Op, OpList};
use std::alloc::AllocError;
use tandem_base::{Bytes8, OpName, Place};

/// Whether two bytes were performed at one place, or both were not.
fn is_same_place(a: Option<Place>, b: Option<Place>) -> bool
    ensures { result ≡ Groups.same_place a b }
{
    match (a, b) {
        (None, None) => true,
        (Some(a), Some(b)) => a.time == b.time && a.message == b.message && a.insert == b.insert,
        _ => false,
    }
}

/// Marks the bytes that were performed at a place, or were not performed.
fn marks_at(places: &[Option<Place>; 8], place: Option<Place>) -> [bool; 8]
    ensures { result ≡ eight (λ k. Groups.same_place (place_in places.now k) place) }
{
    [
        is_same_place(places[0], place),
        is_same_place(places[1], place),
        is_same_place(places[2], place),
        is_same_place(places[3], place),
        is_same_place(places[4], place),
        is_same_place(places[5], place),
        is_same_place(places[6], place),
        is_same_place(places[7], place),
    ]
}

/// The bit of a byte in a mask.
fn bit_where(marked: bool) -> u8
    ensures value { result ≡ (if marked then 1 else 0) }
    ensures small { result ≤ 1 }
{
    if marked { 1 } else { 0 }
}

/// The mask of the marked bytes among the first `len`.
fn mask_of(marks: &[bool; 8], len: u8) -> u8
    requires { len ≤ 8 }
    ensures { result ≡ Groups.mask_from (is_marked marks.now) 0 len }
{
    let mut mask: u8 = 0;
    let mut k = len;
    while k > 0 {
        k -= 1;
        mask = bit_where(marks[usize::from(k)]) + 2 * mask;
    }
    mask
}

/// A number where its byte is marked, else that of a later byte.
fn number_where(marked: bool, k: u8, later: u8) -> u8
    ensures { result ≡ (if marked then k else later) }
{
    if marked { k } else { later }
}

/// The number of the first marked byte among the first `len`; `len` where there is none.
fn first_of(marks: &[bool; 8], len: u8) -> u8
    requires { len ≤ 8 }
    ensures { result ≡ Groups.first_from (is_marked marks.now) 0 len }
{
    let mut first = len;
    let mut k = len;
    while k > 0 {
        k -= 1;
        first = number_where(marks[usize::from(k)], k, first);
    }
    first
}

/// A byte where it is marked, else 0.
fn byte_where(marked: bool, byte: u8) -> u8
    ensures { result ≡ (if marked then byte else 0) }
{
    if marked { byte } else { 0 }
}

/// The marked bytes; 0 for the others.
fn masked(bytes: &Bytes8, marks: &[bool; 8]) -> Bytes8
    ensures value { result ≡ Groups.masked_from (is_marked marks.now) 0 bytes.now }
    ensures small { length bytes.now ≤ 8 }
{
    let mut buf: [u8; 8] = [0; 8];
    for k in 0..bytes.len() {
        buf[usize::from(k)] = byte_where(marks[usize::from(k)], bytes.byte(k));
    }
    match Bytes8::new(&buf[..usize::from(bytes.len())]) {
        Some(made) => made,
        None => unreachable!(),
    }
}

/// The operation of the marked bytes of an access, with its place.
fn marked_op(access: &Access, marks: &[bool; 8], place: Option<Place>) -> Op
    ensures value { result ≡ Groups.op_of access.now (is_marked marks.now) place }
    ensures small { HasAtMost access.now 8 }
{
    let len = access.extent.len();
    Op {
        name: OpName {
            hart: access.hart,
            tag: access.tag,
            part: first_of(marks, len),
        },
        kind: access.kind,
        extent: access.extent,
        mask: mask_of(marks, len),
        got: masked(&access.got, marks),
        put: masked(&access.put, marks),
        acquire: access.acquire,
        release: access.release,
        place,
    }
}

/// The operation of all bytes of an access, which were performed at a place.
pub fn whole_op(access: &Access, place: Place) -> Op
    ensures { result ≡ Groups.op_of access.now (λ k. true) (Some place) }
{
    marked_op(access, &[true; 8], Some(place))
}

/// The operation of the bytes of an access that were performed at a place, or were not performed.
fn part_of(access: &Access, places: &[Option<Place>; 8], place: Option<Place>) -> Op
    ensures { result ≡ Groups.part_at access.now (place_in places.now) place }
{
    marked_op(access, &marks_at(places, place), place)
}

/// Whether one of the first `n` bytes was performed at this place, or was not performed either.
fn is_among_first(places: &[Option<Place>; 8], n: u8, place: Option<Place>) -> bool
    requires { n ≤ 8 }
    ensures { result ≡ Groups.some_below (λ k. Groups.same_place (place_in places.now k) place) n }
{
    let mut found = false;
    for k in 0..n {
        found = found || is_same_place(places[usize::from(k)], place);
    }
    found
}

/// Puts the operations of an access at the end of a list, where `places` says where each of its bytes
/// was performed.
pub fn push_parts(
    list: &mut OpList,
    access: &Access,
    places: &[Option<Place>; 8],
) -> Result<(), AllocError>
    ensures { OnOk result (list.new ≡ list.old ++ Groups.parts_of access.now (place_in places.now)) }
{
    let mut n = access.extent.len();
    while n > 0 {
        n -= 1;
        let place = places[usize::from(n)];
        if !is_among_first(places, n, place) {
            list.push(part_of(access, places, place))?;
        }
    }
    Ok(())
}

/// How many operations an access has, where `places` says where each of its bytes was performed.
pub fn count_parts(access: &Access, places: &[Option<Place>; 8]) -> u64
    ensures value { result ≡ length (Groups.parts_of access.now (place_in places.now)) }
    ensures bound { result ≤ 8 }
{
    let mut count = 0;
    for n in 0..access.extent.len() {
        if !is_among_first(places, n, places[usize::from(n)]) {
            count += 1;
        }
    }
    count
}
