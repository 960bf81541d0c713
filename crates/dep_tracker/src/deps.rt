//! The marks of one hart.

ghost use Rattle.std.specs.Prelude.{◌≡◌, ◌<◌, ℕ, List, [], ◌∷◌, Option, Some, true};
ghost use Rattle.csr_file.specs.CsrFile.{is_implemented};
ghost use Rattle.rv_decode.specs.Listing.{IsInsn};
ghost use Rattle.rv_decode.specs.Registers as table;
ghost use Rattle.rv_decode.specs.declared.registers.Register.TheVariants.{X, Csr};
ghost use Rattle.tandem_base.specs.CsrNumbers.{numbers};
ghost use Rattle.dep_tracker.specs.Marks.{Started, CarriedTo, UsedBy, UsedIn, IsLatestMark};
ghost use Rattle.dep_tracker.specs.Tables.{StandsFor, IsKnown, index_in, mark_of, mark_at, x_mark};
ghost use Rattle.dep_tracker.specs.Tables.{put_mark, csr_place, later_mark};

use rv_decode::Insn;
use rv_decode::registers::{
    Register, address_source, carried_to_csr, carried_to_register, control_sources,
    csr_destination, data_source, destination,
};
use std::marker::Model;
use tandem_base::Mark;
use tandem_base::csrs::{
    CYCLE, INSTRET, MCAUSE, MEPC, MHARTID, MIE, MIP, MSCRATCH, MSTATUS, MTVAL, MTVEC, TIME,
};

/// The latest operations on which the next instruction of a hart would depend, by each register and CSR.
#[derive(Drop)]
pub struct Deps {
    registers: [Option<Mark>; 32],
    csrs: [Option<Mark>; 12],
    control: Option<Mark>,
    past_address: Option<Mark>,
}

impl Model for Deps {
    ghost use Rattle.std.specs.Prelude.{◌≡◌, length};
    ghost use Rattle.dep_tracker.specs.Tables.{MarkTable};

    ghost Value = { MarkTable };

    ghost view = { λ d. record {
      registers = d.registers;
      csrs = d.csrs;
      control = d.control;
      past_address = d.past_address;
    } };

    ghost invariant = { λ d. (length d.registers ≡ 32) × (length d.csrs ≡ 12) };
}

/// Where a CSR has its mark: 12 for a number outside the twelve.
fn csr_index(number: u16) -> usize
    ensures { result ≡ index_in numbers number }
{
    match number {
        MSTATUS => 0,
        MIE => 1,
        MTVEC => 2,
        MSCRATCH => 3,
        MEPC => 4,
        MCAUSE => 5,
        MTVAL => 6,
        MIP => 7,
        CYCLE => 8,
        TIME => 9,
        INSTRET => 10,
        MHARTID => 11,
        _ => 12,
    }
}

/// The later of two marks.
fn later(a: Option<Mark>, b: Option<Mark>) -> Option<Mark>
    ensures { result ≡ later_mark a b }
{
    match (a, b) {
        (None, _) => b,
        (Some(m), Some(n)) if m.place.is_before(&n.place) => b,
        _ => a,
    }
}

/// Sets a mark to the later of it and another.
fn raise(mark: &mut Option<Mark>, other: Option<Mark>)
    ensures { mark.new ≡ later_mark mark.old other }
{
    match other {
        None => {}
        Some(_m) => *mark = later(*mark, other),
    }
}

impl Deps {
    /// The marks of a hart before its first instruction.
    pub fn new() -> Deps
        ensures { StandsFor result [] }
    {
        Deps {
            registers: [None; 32],
            csrs: [None; 12],
            control: None,
            past_address: None,
        }
    }

    /// The mark of an integer register.
    fn x(&self, number: u8) -> Option<Mark>
        ensures { result ≡ mark_at self.now (X number) }
    {
        match self.registers.get(usize::from(number)) {
            Some(mark) => *mark,
            None => None,
        }
    }

    /// The mark of a CSR.
    fn csr(&self, number: u16) -> Option<Mark>
        ensures { result ≡ mark_at self.now (Csr number) }
    {
        match self.csrs.get(csr_index(number)) {
            Some(mark) => *mark,
            None => None,
        }
    }

    fn of_number(&self, number: Option<u8>) -> Option<Mark>
        ensures { result ≡ x_mark self.now number }
    {
        match number {
            None => None,
            Some(n) => self.x(n),
        }
    }

    fn of_register(&self, r: Option<Register>) -> Option<Mark>
        ensures { result ≡ mark_of self.now r }
    {
        match r {
            None => None,
            Some(Register::X(n)) => self.x(n),
            Some(Register::Csr(n)) => self.csr(n),
        }
    }

    /// The latest of the operations on which the instruction depends by its address (rule 9). None
    /// exactly where there is none.
    pub fn address(&self, insn: &Insn) -> Option<Mark>
        ensures { (ws : List Started) → StandsFor self.now ws
            → IsLatestMark (UsedBy table.is_address insn.now ws) result }
    {
        self.of_number(address_source(insn))
    }

    /// The latest of the operations on which the instruction depends by the data that it stores
    /// (rule 10). None exactly where there is none.
    pub fn value(&self, insn: &Insn) -> Option<Mark>
        ensures { (ws : List Started) → StandsFor self.now ws
            → IsLatestMark (UsedBy table.is_data insn.now ws) result }
    {
        self.of_number(data_source(insn))
    }

    /// The latest of the operations on which some branch or JALR before depends (rule 11). None exactly
    /// where there is none.
    pub fn control(&self) -> Option<Mark>
        ensures { (ws : List Started) → StandsFor self.now ws → IsLatestMark (UsedIn table.is_control ws) result }
    {
        self.control
    }

    /// The latest of the operations on which some instruction before depends by its address (rule 13).
    /// None exactly where there is none.
    pub fn past_address(&self) -> Option<Mark>
        ensures { (ws : List Started) → StandsFor self.now ws → IsLatestMark (UsedIn table.is_address ws) result }
    {
        self.past_address
    }

    /// The same for where this instruction goes.
    fn branch(&self, insn: &Insn) -> Option<Mark>
        ensures { (ws : List Started) → StandsFor self.now ws
            → IsLatestMark (UsedBy table.is_control insn.now ws) result }
    {
        let sources = control_sources(insn);
        let first = self.of_number(sources.0);
        let second = self.of_number(sources.1);
        later(first, second)
    }

    /// The mark that the instruction carries to the register that it sets.
    fn to_register(&self, insn: &Insn) -> Option<Mark>
        ensures { (ws : List Started) → StandsFor self.now ws → (n : ℕ) → table.sets insn.now true (X n) ≡ true
            → IsLatestMark (CarriedTo insn.now ws (X n)) result }
    {
        let sources = carried_to_register(insn);
        let first = self.of_register(sources.0);
        let second = self.of_register(sources.1);
        later(first, second)
    }

    /// The mark that the instruction carries to the CSR that it sets.
    fn to_csr(&self, insn: &Insn) -> Option<Mark>
        ensures { (ws : List Started) → StandsFor self.now ws → (n : ℕ) → table.sets insn.now true (Csr n) ≡ true
            → IsLatestMark (CarriedTo insn.now ws (Csr n)) result }
    {
        self.of_number(carried_to_csr(insn))
    }

    fn set_x(&mut self, target: Option<u8>, mark: Option<Mark>)
        requires { (n : ℕ) → target ≡ Some n → n < 32 }
        ensures { self.new ≡ record self.old { registers = put_mark target mark self.old.registers } }
    {
        match target {
            None => {}
            Some(n) => self.registers[usize::from(n)] = mark,
        }
    }

    fn set_csr(&mut self, target: Option<u16>, mark: Option<Mark>)
        requires { (n : ℕ) → target ≡ Some n → is_implemented n ≡ true }
        ensures { self.new ≡ record self.old { csrs = put_mark (csr_place target) mark self.old.csrs } }
    {
        match target {
            None => {}
            Some(n) => self.csrs[csr_index(n)] = mark,
        }
    }

    /// Takes an instruction that retired without a trap. `start` is the latest in global order of its
    /// operations for a load, LR, AMO or SC that stored, and None for every other instruction. The
    /// instruction has to be one that some word encodes, and its CSR one of the twelve.
    pub fn retire(&mut self, insn: &Insn, start: Option<Mark>)
        // It is what its word was decoded as.
        requires insn { IsInsn insn.now }
        // Access to any other CSR traps.
        requires csr { IsKnown insn.now }
        ensures { (ws : List Started) → StandsFor self.old ws
            → StandsFor self.new (record { insn = insn.now; start = start } ∷ ws) }
    {
        let address = self.address(insn);
        let control = self.branch(insn);
        let register = later(start, self.to_register(insn));
        let csr = later(start, self.to_csr(insn));
        let stored = start.is_some();
        let target = destination(insn, stored);
        let csr_target = csr_destination(insn);
        self.set_x(target, register);
        self.set_csr(csr_target, csr);
        raise(&mut self.past_address, address);
        raise(&mut self.control, control);
    }
}
