//! What CSR instructions, traps and MRET read and write.

ghost use Rattle.std.specs.Prelude.{◌≡◌, ◌<◌, [], ◌∷◌, true};
ghost use Rattle.csr_file.specs.CsrFile.{kept, read_of};
ghost use Rattle.tandem_base.specs.CsrNumbers as csr;
ghost use Rattle.rv_decode.specs.Registers.{writes_csr};
ghost use Rattle.rv_step.specs.CsrUse.{is_counter, is_legal_csr, new_csr, old_csr, operand_of, value_read};
ghost use Rattle.rv_step.specs.Steps.{csr_value, trap_csrs};

use super::Hart;
use csr_file::{CsrRead, CsrWrite, Csrs};
use msg_frames::{CsrList, CsrValue};
use rv_decode::CsrOp;
use rv_decode::registers::writes_csr;
use tandem_base::csrs::{CYCLE, MCAUSE, MEPC, MSTATUS, MTVAL, TIME};

impl Hart {
    /// Whether a CSR instruction may use the CSR: it is there, and may be written if it is.
    pub(crate) fn may_use(&self, op: CsrOp, source: u8, number: u16) -> bool
        ensures { result ≡ is_legal_csr op source number }
    {
        let read_only = number / 0x400 % 4 == 3;
        self.csrs.read(number) != CsrRead::Absent && !(writes_csr(op, source) && read_only)
    }

    /// The value of a CSR, where that of a counter is reported, and an absent one is 0.
    pub(crate) fn csr_value(&self, number: u16, reported: u64) -> u64
        ensures { result ≡ old_csr self.now number reported }
    {
        match self.csrs.read(number) {
            CsrRead::Value(value) => value,
            CsrRead::Cycle | CsrRead::Time => reported,
            CsrRead::Instret => self.retired,
            CsrRead::Absent => 0,
        }
    }

    /// Lists what a CSR instruction that writes leaves in the CSR.
    pub(crate) fn list_written(
        &self,
        op: CsrOp,
        source: u8,
        number: u16,
        reported: u64,
        list: &mut CsrList,
    )
        requires source { source < 32 }
        requires legal { is_legal_csr op source number ≡ true }
        requires writes { writes_csr op source ≡ true }
        requires empty { list.old ≡ [] }
        ensures { list.new
            ≡ csr_value number
            (kept number (new_csr op (old_csr self.now number reported) (operand_of self.now op source))) ∷ [] }
    {
        let old = self.csr_value(number, reported);
        let mut csrs = self.csrs;
        match csrs.write(number, combined(op, old, self.operand(op, source))) {
            CsrWrite::Done(value) => list.push(CsrValue { number, value }),
            CsrWrite::ReadOnly | CsrWrite::Absent => unreachable!(),
        }
    }

    /// The register, or the immediate, of a CSR instruction.
    fn operand(&self, op: CsrOp, source: u8) -> u64
        requires { source < 32 }
        ensures { result ≡ operand_of self.now op source }
    {
        match op {
            CsrOp::Rw | CsrOp::Rs | CsrOp::Rc => self.x(source),
            CsrOp::Rwi | CsrOp::Rsi | CsrOp::Rci => u64::from(source),
        }
    }
}

/// A CSR with its value, 0 where that isn't held.
fn value_in(csrs: &Csrs, number: u16) -> CsrValue
    ensures { result ≡ csr_value number (value_read (read_of csrs.now number) 0 0) }
{
    let value = match csrs.read(number) {
        CsrRead::Value(value) => value,
        _ => 0,
    };
    CsrValue { number, value }
}

/// Lists what MRET left in mstatus.
pub(crate) fn list_returned(csrs: &Csrs, list: &mut CsrList)
    requires { list.old ≡ [] }
    ensures { list.new ≡ csr_value csr.mstatus csrs.now.mstatus ∷ [] }
{
    list.push(value_in(csrs, MSTATUS));
}

/// Lists what a trap left in the four CSRs that it writes.
pub(crate) fn list_trapped(csrs: &Csrs, list: &mut CsrList)
    requires { list.old ≡ [] }
    ensures { list.new ≡ trap_csrs csrs.now }
{
    list.push(value_in(csrs, MSTATUS));
    list.push(value_in(csrs, MEPC));
    list.push(value_in(csrs, MCAUSE));
    list.push(value_in(csrs, MTVAL));
}

/// The value that a CSR instruction writes.
fn combined(op: CsrOp, old: u64, operand: u64) -> u64
    ensures { result ≡ new_csr op old operand }
{
    match op {
        CsrOp::Rw | CsrOp::Rwi => operand,
        CsrOp::Rs | CsrOp::Rsi => old | operand,
        CsrOp::Rc | CsrOp::Rci => old & !operand,
    }
}

/// Whether the CSR is a counter whose value is known outside alone.
pub(crate) fn counts_outside(number: u16) -> bool
    ensures { result ≡ is_counter number }
{
    number == CYCLE || number == TIME
}
