//! What a Retire reports against what the model gives: one check for each fault.

ghost use Rattle.std.specs.Prelude.{◌≡◌};
ghost use Rattle.matching.specs.Checks.{Checks};
ghost use Rattle.matching.specs.Compares.{tag_fault_of, pc_fault_of, word_fault_of, trap_fault_of};
ghost use Rattle.matching.specs.Compares.{next_fault_of, meets, rd_fault_of, csr_entry_fault_of};
ghost use Rattle.matching.specs.Compares.{csr_fault_of};

use super::faulty::{Faulty, refuse};
use msg_frames::{CsrList, CsrValue, RdValue};
use verdict_report::{Fault, RdWant};

/// A Retire's tag has to be above the last retired one.
pub fn check_tag(last: Option<u64>, tag: u64, found: &mut Option<Fault>) -> Result<(), Faulty>
    ensures { Checks (tag_fault_of last tag) result found.new }
{
    match last {
        Some(last) if tag <= last => refuse(found, Fault::TagOrder { last }),
        _ => Ok(()),
    }
}

/// The address of the instruction.
pub fn check_pc(want: u64, got: u64, found: &mut Option<Fault>) -> Result<(), Faulty>
    ensures { Checks (pc_fault_of want got) result found.new }
{
    if want == got {
        Ok(())
    } else {
        refuse(found, Fault::Pc { want, got })
    }
}

/// The word of the instruction.
pub fn check_word(want: u32, got: u32, found: &mut Option<Fault>) -> Result<(), Faulty>
    ensures { Checks (word_fault_of want got) result found.new }
{
    if want == got {
        Ok(())
    } else {
        refuse(found, Fault::Word { want, got })
    }
}

/// Whether the instruction trapped, and the cause.
pub fn check_trap(
    want: Option<u8>,
    got: Option<u8>,
    found: &mut Option<Fault>,
) -> Result<(), Faulty>
    ensures { Checks (trap_fault_of want got) result found.new }
{
    if want == got {
        Ok(())
    } else {
        refuse(found, Fault::Trap { want, got })
    }
}

/// The address of the next instruction.
pub fn check_next(want: u64, got: u64, found: &mut Option<Fault>) -> Result<(), Faulty>
    ensures { Checks (next_fault_of want got) result found.new }
{
    if want == got {
        Ok(())
    } else {
        refuse(found, Fault::NextPc { want, got })
    }
}

/// Whether what is reported of a register is what is wanted of it.
fn is_met(want: &RdWant, got: &Option<RdValue>) -> bool
    ensures { result ≡ meets want.now got.now }
{
    match (want, got) {
        (RdWant::Absent, None) => true,
        (RdWant::Value(rd), Some(got)) => rd.number == got.number && rd.value == got.value,
        (RdWant::Nonzero(number), Some(got)) => *number == got.number && got.value != 0,
        (RdWant::AtLeast(rd), Some(got)) => rd.number == got.number && rd.value <= got.value,
        _ => false,
    }
}

/// The register that was written, and its value.
pub fn check_rd(
    want: RdWant,
    got: &Option<RdValue>,
    found: &mut Option<Fault>,
) -> Result<(), Faulty>
    ensures { Checks (rd_fault_of want got.now) result found.new }
{
    if is_met(&want, got) {
        Ok(())
    } else {
        refuse(found, Fault::Rd { want, got: *got })
    }
}

/// One entry of the lists of written CSRs, which either list may lack.
fn check_csr(
    index: u8,
    want: Option<CsrValue>,
    got: Option<CsrValue>,
    found: &mut Option<Fault>,
) -> Result<(), Faulty>
    ensures { Checks (csr_entry_fault_of index want got) result found.new }
{
    if want == got {
        Ok(())
    } else {
        refuse(found, Fault::Csr { index, want, got })
    }
}

/// The CSRs that were written: the first entry in which the two lists differ is at fault.
pub fn check_csrs(wants: &CsrList, gots: &CsrList, found: &mut Option<Fault>) -> Result<(), Faulty>
    ensures { Checks (csr_fault_of wants.now gots.now) result found.new }
{
    let longest = wants.len().max(gots.len());
    for index in 0..longest {
        match check_csr(index as u8, wants.get(index), gots.get(index), found) {
            Ok(()) => {}
            Err(faulty) => return Err(faulty),
        }
    }
    Ok(())
}
