//! The registers of one hart, and what reads, writes, traps and MRET do to them.

ghost use Rattle.std.specs.Prelude.{◌≡◌, ◌%◌, ◌↔◌, Bool, false};
ghost use Rattle.csr_file.specs.CsrFile.{is_implemented, is_read_only, read_of, write_of, written};
ghost use Rattle.csr_file.specs.CsrFile.{csrs_at_start, trapped, returned, mstatus_kept, mie_kept, multiple_of_4};

use crate::answers::{CsrRead, CsrWrite};
use std::marker::Model;
use tandem_base::csrs::{
    CYCLE, INSTRET, MCAUSE, MEPC, MHARTID, MIE, MIP, MSCRATCH, MSTATUS, MTVAL, MTVEC, TIME,
};

/// The control and status registers of one hart. Contracts see the values that they hold.
#[derive(Clone, Copy, Debug, PartialEq, Eq)]
pub struct Csrs {
    mstatus: u64,
    mie: u64,
    mtvec: u64,
    mscratch: u64,
    mepc: u64,
    mcause: u64,
    mtval: u64,
    mhartid: u8,
}

impl Model for Csrs {
    ghost use Rattle.std.specs.Prelude.{◌≡◌, ◌%◌};
    ghost use Rattle.csr_file.specs.CsrFile.{CsrValues};

    ghost Value = { CsrValues };

    ghost view = { λ c. record {
      mstatus = c.mstatus;
      mie = c.mie;
      mtvec = c.mtvec;
      mscratch = c.mscratch;
      mepc = c.mepc;
      mcause = c.mcause;
      mtval = c.mtval;
      mhartid = c.mhartid;
    } };

    ghost invariant = { λ c. (c.mtvec % 4 ≡ 0) × (c.mepc % 4 ≡ 0) };

    ghost inverse = { λ v. record {
      mstatus = v.mstatus;
      mie = v.mie;
      mtvec = v.mtvec;
      mscratch = v.mscratch;
      mepc = v.mepc;
      mcause = v.mcause;
      mtval = v.mtval;
      mhartid = v.mhartid;
    } };
}

/// What mstatus keeps of a value: MIE and MPIE.
fn kept_in_mstatus(value: u64) -> u64
    ensures { result ≡ mstatus_kept value }
{
    0x1800 + value / 0x80 % 2 * 0x80 + value / 8 % 2 * 8
}

/// What mie keeps of a value: MSIE, MTIE and MEIE.
fn kept_in_mie(value: u64) -> u64
    ensures { result ≡ mie_kept value }
{
    value / 0x800 % 2 * 0x800 + value / 0x80 % 2 * 0x80 + value / 8 % 2 * 8
}

/// Bits 63:2 of a value.
fn without_low_bits(value: u64) -> u64
    ensures value { result ≡ multiple_of_4 value }
    ensures aligned { result % 4 ≡ 0 }
{
    value - value % 4
}

impl Csrs {
    /// The registers of a hart at the start: mstatus 0x1800, mhartid the hart's number, and all
    /// others 0.
    pub fn new(hart: u8) -> Csrs
        ensures { result ≡ csrs_at_start hart }
    {
        Csrs {
            mstatus: 0x1800,
            mie: 0,
            mtvec: 0,
            mscratch: 0,
            mepc: 0,
            mcause: 0,
            mtval: 0,
            mhartid: hart,
        }
    }

    /// The register of this number. Absent exactly for a number outside the twelve.
    pub fn read(&self, number: u16) -> CsrRead
        ensures value { result ≡ read_of self.now number }
        ensures absent { (result ≡ CsrRead.Absent) ↔ (is_implemented number ≡ false) }
    {
        match number {
            MSTATUS => CsrRead::Value(self.mstatus),
            MIE => CsrRead::Value(self.mie),
            MTVEC => CsrRead::Value(self.mtvec),
            MSCRATCH => CsrRead::Value(self.mscratch),
            MEPC => CsrRead::Value(self.mepc),
            MCAUSE => CsrRead::Value(self.mcause),
            MTVAL => CsrRead::Value(self.mtval),
            MIP => CsrRead::Value(0),
            CYCLE => CsrRead::Cycle,
            TIME => CsrRead::Time,
            INSTRET => CsrRead::Instret,
            MHARTID => CsrRead::Value(u64::from(self.mhartid)),
            _ => CsrRead::Absent,
        }
    }

    /// Writes the register of this number, which keeps what its bits allow: Done carries the value
    /// kept. Absent exactly for a number outside the twelve, and ReadOnly exactly for one of the
    /// twelve whose bits 11:10 are 11; both change nothing.
    pub fn write(&mut self, number: u16, value: u64) -> CsrWrite
        ensures answer { result ≡ write_of number value }
        ensures registers { self.new ≡ written self.old number value }
    {
        match number {
            MSTATUS => {
                self.mstatus = kept_in_mstatus(value);
                CsrWrite::Done(self.mstatus)
            }
            MIE => {
                self.mie = kept_in_mie(value);
                CsrWrite::Done(self.mie)
            }
            MTVEC => {
                self.mtvec = without_low_bits(value);
                CsrWrite::Done(self.mtvec)
            }
            MSCRATCH => {
                self.mscratch = value;
                CsrWrite::Done(value)
            }
            MEPC => {
                self.mepc = without_low_bits(value);
                CsrWrite::Done(self.mepc)
            }
            MCAUSE => {
                self.mcause = value;
                CsrWrite::Done(value)
            }
            MTVAL => {
                self.mtval = value;
                CsrWrite::Done(value)
            }
            MIP => CsrWrite::Done(0),
            CYCLE | TIME | INSTRET | MHARTID => CsrWrite::ReadOnly,
            _ => CsrWrite::Absent,
        }
    }

    /// Takes a trap at the instruction at `pc`, with this cause and this value for mtval: MPIE
    /// takes MIE, and MIE is 0. The answer is the next pc, mtvec.
    pub fn trap(&mut self, cause: u8, pc: u64, value: u64) -> u64
        ensures next { result ≡ self.old.mtvec }
        ensures aligned { result % 4 ≡ 0 }
        ensures registers { self.new ≡ trapped self.old cause pc value }
    {
        self.mstatus = 0x1800 + self.mstatus / 8 % 2 * 0x80;
        self.mepc = without_low_bits(pc);
        self.mcause = u64::from(cause);
        self.mtval = value;
        self.mtvec
    }

    /// Returns from a trap, as MRET does: MIE takes MPIE, and MPIE is 1. The answer is the next
    /// pc, mepc.
    pub fn mret(&mut self) -> u64
        ensures next { result ≡ self.old.mepc }
        ensures aligned { result % 4 ≡ 0 }
        ensures registers { self.new ≡ returned self.old }
    {
        self.mstatus = 0x1880 + self.mstatus / 0x80 % 2 * 8;
        self.mepc
    }
}
