//! The plain program that judges a trace.

mod answers;
mod atomic;
mod dependents;
mod kinds;
mod looks;
mod naming;
mod newest;
mod order;
mod rules;
mod sources;
mod walk;

ghost use Rattle.std.specs.Prelude.{◌≡◌, ◌↔◌, IfOk};
ghost use Rattle.rvwmo_model.specs.InForm.{InForm};
ghost use Rattle.rvwmo_model.specs.Legal.{Legal};
ghost use Rattle.rvwmo_model.specs.Report.{IsAnswer};
ghost use Rattle.rvwmo_model.specs.Last.{IsFine, IsLast};
ghost use Rattle.rvwmo_model.specs.LastAnswer.{newest_answer};
ghost use Rattle.rvwmo_model.specs.declared.answers.Judged.TheVariants as judged;
ghost use Rattle.rvwmo_model.specs.declared.answers.Last.TheVariants as last;

use crate::answers::{Judged, Last};
use crate::initial::InitialBytes;
use crate::traces::Trace;
use std::alloc::{AllocError, Global};

/// Judges a trace in form. The answer is Legal exactly where the trace is legal; else it is the first
/// of pair, value, order and atomicity that is broken, with the choices that `Judged` states. This is
/// the definitions' plain program: it goes through all pairs of operations.
pub fn plain_judge<I: InitialBytes>(
    alloc: Global,
    image: &I,
    trace: &Trace,
) -> Result<Judged, AllocError>
    requires in_form { InForm trace.now }
    ensures answer { IfOk result (IsAnswer (I.initial_of image.now) trace.now) }
    ensures legal { IfOk result (λ answer. (answer ≡ judged.Legal) ↔ Legal (I.initial_of image.now) trace.now) }
{
    answers::answer(alloc, image, trace)
}

/// Judges a trace at its newest step; what is said of the answer holds of a trace in form. With a
/// tag, `hart` retires the instruction under it, and the answer is the first that stands of these: a
/// byte that it loaded is wrong; a pair of preserved program order is broken, anywhere in the trace;
/// it is an SC that isn't atomic with its LR. Without a tag, as where stores are performed, order
/// alone is asked. Fine is answered exactly where nothing that is asked stands.
pub fn plain_last<I: InitialBytes>(
    alloc: Global,
    image: &I,
    trace: &Trace,
    hart: u8,
    tag: Option<u64>,
) -> Result<Last, AllocError>
    ensures answer { InForm trace.now → IfOk result (IsLast (I.initial_of image.now) trace.now hart tag) }
    ensures fine { InForm trace.now →
        IfOk result (λ answer. (answer ≡ last.Fine) ↔ IsFine (I.initial_of image.now) trace.now hart tag) }
    ensures computed { IfOk result (λ answer. answer ≡ newest_answer (I.initial_of image.now) trace.now hart tag) }
{
    newest::newest_answer(alloc, image, trace, hart, tag)
}
