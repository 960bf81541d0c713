//! The first operations of broken pairs, from the marks of a hart.

ghost use Rattle.std.specs.Prelude.{◌≡◌};
ghost use Rattle.rvwmo_model.specs.declared.instructions.Retired.{Retired};
ghost use Rattle.rvwmo_model.specs.declared.operations.Op.{Op};
ghost use Rattle.rvwmo_model.specs.declared.traces.Trace.{Trace};
ghost use Rattle.rvwmo_model.specs.declared.preserved.Rule.TheVariants.{R9, R10, R11, R13};
ghost use Rattle.rule_laws.specs.Named.{NamesFirst};
ghost use Rattle.dependency_rules.specs.Asked.{IsDependent, name_past, where_it_stores};

use dep_tracker::Deps;
use rv_decode::Insn;
use rvwmo_model::OpKind;
use tandem_base::{Mark, OpName, Position};

/// The name of a mark that comes after a place.
fn name_after(mark: Option<Mark>, place: Position) -> Option<OpName>
    ensures { result ≡ name_past place mark }
{
    match mark {
        Some(mark) if place.is_before(&mark.place) => Some(mark.name),
        _ => None,
    }
}

/// The answer for a store; no other operation has one.
fn for_store(kind: OpKind, answer: Option<OpName>) -> Option<OpName>
    ensures { result ≡ where_it_stores kind answer }
{
    match kind {
        OpKind::Load => None,
        OpKind::Store => answer,
        OpKind::Both => answer,
    }
}

/// Rule 9: the operation that the instruction takes its address from, and that was performed after this
/// one of its operations, at `place`.
pub fn first_by_address(deps: &Deps, insn: &Insn, place: Position) -> Option<OpName>
    ensures { (t t' : Trace) (r : Retired) (b : Op) → IsDependent t t' r b deps.now place → r.insn ≡ insn.now
        → NamesFirst R9 t' b result }
{
    name_after(deps.address(insn), place)
}

/// Rule 10: the operation that the instruction takes the data of its store from, and that was performed
/// after this one of its operations, at `place`.
pub fn first_by_data(deps: &Deps, insn: &Insn, place: Position) -> Option<OpName>
    ensures { (t t' : Trace) (r : Retired) (b : Op) → IsDependent t t' r b deps.now place → r.insn ≡ insn.now
        → NamesFirst R10 t' b result }
{
    name_after(deps.value(insn), place)
}

/// Rule 11: the operation that decided where a branch or indirect jump before the instruction went, and
/// that was performed after this operation of that kind, at `place`, where it stores.
pub fn first_by_control(deps: &Deps, kind: OpKind, place: Position) -> Option<OpName>
    ensures { (t t' : Trace) (r : Retired) (b : Op) → IsDependent t t' r b deps.now place → b.kind ≡ kind
        → NamesFirst R11 t' b result }
{
    for_store(kind, name_after(deps.control(), place))
}

/// Rule 13: the operation that an instruction before this one took its address from, and that was
/// performed after this operation of that kind, at `place`, where it stores.
pub fn first_by_address_between(deps: &Deps, kind: OpKind, place: Position) -> Option<OpName>
    ensures { (t t' : Trace) (r : Retired) (b : Op) → IsDependent t t' r b deps.now place → b.kind ≡ kind
        → NamesFirst R13 t' b result }
{
    for_store(kind, name_after(deps.past_address(), place))
}
