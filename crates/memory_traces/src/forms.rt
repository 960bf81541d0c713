//! The test that a trace is in form, as `plain_judge` wants it.

ghost use Rattle.std.specs.Prelude.{◌≡◌, ◌++◌, is_some, IsTrue};
ghost use Rattle.rv_decode.specs.Kinds.{is_lr};
ghost use Rattle.rvwmo_model.specs.InForm.{InForm};
ghost use Rattle.rvwmo_model.specs.ProgramOrder.{insn_at, is_one};
ghost use Rattle.std.specs.List.{list_any, list_all};
ghost use Rattle.memory_traces.specs.FormTest;

use rv_decode::Insn;
use rvwmo_model::{Op, Retired};
use tandem_base::Place;

/// Whether the instruction of an operation is in the list.
fn is_named(insns: &[Retired], o: &Op) -> bool
    ensures { result ≡ FormTest.is_named insns.now o.now }
{
    for w in insns {
        if w.hart == o.name.hart && w.tag == o.name.tag {
            return true;
        }
    }
    false
}

/// Whether that of each is.
fn all_named(insns: &[Retired], ops: &[Op]) -> bool
    ensures { result ≡ list_all (FormTest.is_named insns.now) ops.now }
{
    for o in ops {
        if !is_named(insns, o) {
            return false;
        }
    }
    true
}

/// Whether none of `rest` is an instruction of the hart of `w` that is as old or older.
fn all_follow(w: &Retired, rest: &[Retired]) -> bool
    ensures { result ≡ list_all (FormTest.follows w.now) rest.now }
{
    for v in rest {
        if v.hart == w.hart && w.tag >= v.tag {
            return false;
        }
    }
    true
}

/// Whether the instructions of each hart rise by tag.
fn is_rising(insns: &[Retired]) -> bool
    ensures { result ≡ FormTest.each_two FormTest.follows insns.now }
{
    for k in 0..insns.len() {
        if !all_follow(&insns[k], &insns[k + 1..]) {
            return false;
        }
    }
    true
}

/// Whether two places are one.
fn is_one_place(p: &Place, q: &Place) -> bool
    ensures { result ≡ FormTest.is_one_place p.now q.now }
{
    p.time == q.time && p.message == q.message && p.insert == q.insert
}

/// Whether they are one place, or none and of one instruction.
fn clash(a: Option<Place>, b: Option<Place>, one: bool) -> bool
    ensures { result ≡ FormTest.clash a b one }
{
    match (a, b) {
        (Some(p), Some(q)) => is_one_place(&p, &q),
        (None, None) => one,
        (Some(_p), None) => false,
        (None, Some(_q)) => false,
    }
}

/// Whether two operations have different names and don't clash.
fn is_apart(a: &Op, b: &Op) -> bool
    ensures { result ≡ FormTest.apart a.now b.now }
{
    let one = a.name.hart == b.name.hart && a.name.tag == b.name.tag;
    !(one && a.name.part == b.name.part) && !clash(a.place, b.place, one)
}

/// Whether `a` is so with each of `rest`.
fn all_apart(a: &Op, rest: &[Op]) -> bool
    ensures { result ≡ list_all (FormTest.apart a.now) rest.now }
{
    for b in rest {
        if !is_apart(a, b) {
            return false;
        }
    }
    true
}

/// Whether each two are.
fn each_apart(ops: &[Op]) -> bool
    ensures { result ≡ FormTest.each_two FormTest.apart ops.now }
{
    for k in 0..ops.len() {
        if !all_apart(&ops[k], &ops[k + 1..]) {
            return false;
        }
    }
    true
}

/// Whether each has a place.
fn all_performed(early: &[Op]) -> bool
    ensures { result ≡ list_all FormTest.is_performed early.now }
{
    for o in early {
        if o.place.is_none() {
            return false;
        }
    }
    true
}

/// Whether a mask fits an extent of 4 or of 8 bytes.
fn fits(mask: u8, len: u8) -> bool
    ensures { result ≡ FormTest.fits mask len }
{
    if len == 4 { mask < 16 } else { len == 8 }
}

/// Whether the mask and the bytes of an operation fit its extent.
fn is_whole(o: &Op) -> bool
    ensures { result ≡ FormTest.whole o.now }
{
    let len = o.extent.len();
    0 < o.mask && fits(o.mask, len) && o.got.len() == len && o.put.len() == len
}

/// Whether those of each do.
fn all_whole(ops: &[Op]) -> bool
    ensures { result ≡ list_all FormTest.whole ops.now }
{
    for o in ops {
        if !is_whole(o) {
            return false;
        }
    }
    true
}

/// Whether an operation is of the instruction.
fn is_of_insn(w: &Retired, o: &Op) -> bool
    ensures { result ≡ FormTest.is_of_insn w.now o.now }
{
    o.name.hart == w.hart && o.name.tag == w.tag
}

/// Whether some operation is.
fn some_of_insn(w: &Retired, ops: &[Op]) -> bool
    ensures { result ≡ list_any (FormTest.is_of_insn w.now) ops.now }
{
    for o in ops {
        if is_of_insn(w, o) {
            return true;
        }
    }
    false
}

/// Whether exactly one operation is.
fn is_lone(w: &Retired, ops: &[Op]) -> bool
    ensures { result ≡ FormTest.lone (FormTest.is_of_insn w.now) ops.now }
{
    for k in 0..ops.len() {
        if is_of_insn(w, &ops[k]) {
            return !some_of_insn(w, &ops[k + 1..]);
        }
    }
    false
}

/// Whether it is an LR, or an SC that stored.
fn reserves(w: &Retired) -> bool
    ensures { result ≡ FormTest.reserves w.now }
{
    match w.insn {
        Insn::Lr { .. } => true,
        Insn::Sc { .. } => w.stored,
        _ => false,
    }
}

/// Whether each of these has one operation.
fn all_single(insns: &[Retired], ops: &[Op]) -> bool
    ensures { result ≡ list_all (FormTest.single ops.now) insns.now }
{
    for w in insns {
        if reserves(w) && !is_lone(w, ops) {
            return false;
        }
    }
    true
}

/// Whether a reservation may cover blocks of this size; 0 is no block.
fn is_granule(granule: u8) -> bool
    ensures { result ≡ FormTest.is_granule granule }
{
    granule == 0 || granule == 8 || granule == 16 || granule == 32 || granule == 64
}

/// Whether the instruction of an operation is an LR.
fn is_lr_of(insns: &[Retired], o: &Op) -> bool
    ensures { result ≡ is_one is_lr (insn_at insns.now o.now.name.hart o.now.name.tag) }
{
    for w in insns {
        if w.hart == o.name.hart && w.tag == o.name.tag {
            return matches!(w.insn, Insn::Lr { .. });
        }
    }
    false
}

/// Whether, where there are blocks, an operation of an LR is aligned.
fn lr_is_aligned(granule: u8, insns: &[Retired], o: &Op) -> bool
    ensures { result ≡ FormTest.lr_is_aligned granule insns.now o.now }
{
    granule == 0 || !is_lr_of(insns, o) || o.extent.addr % u64::from(o.extent.len) == 0
}

/// Whether that of each LR is.
fn all_aligned(granule: u8, insns: &[Retired], ops: &[Op]) -> bool
    ensures { result ≡ list_all (FormTest.lr_is_aligned granule insns.now) ops.now }
{
    for o in ops {
        if !lr_is_aligned(granule, insns, o) {
            return false;
        }
    }
    true
}

/// Whether the trace of these lists passes the test. In `all` stand its operations, and then its early
/// stores.
fn passes(granule: u8, insns: &[Retired], ops: &[Op], early: &[Op], all: &[Op]) -> bool
    requires { all.now ≡ ops.now ++ early.now }
    ensures { result ≡ FormTest.in_form granule insns.now ops.now early.now }
{
    is_rising(insns)
        && all_single(insns, ops)
        && all_named(insns, ops)
        && all_performed(early)
        && all_whole(all)
        && each_apart(all)
        && is_granule(granule)
        && all_aligned(granule, insns, ops)
}

/// Whether the trace of these instructions, operations and early stores passes the test; then it is in
/// form. In `all` stand its operations, and then its early stores.
#[tactic(auto, using(crate::proofs::Formed::formed))]
pub fn is_in_form(granule: u8, insns: &[Retired], ops: &[Op], early: &[Op], all: &[Op]) -> bool
    requires { all.now ≡ ops.now ++ early.now }
    ensures passes { result ≡ FormTest.in_form granule insns.now ops.now early.now }
    ensures form { IsTrue result → InForm (record {
      insns = insns.now;
      ops = ops.now;
      early = early.now;
      granule = granule;
    }) }
{
    passes(granule, insns, ops, early, all)
}
