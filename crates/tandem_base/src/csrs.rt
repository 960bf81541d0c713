//! The numbers of the twelve CSRs (Volume II, the table of CSR addresses).

ghost use Rattle.std.specs.Prelude.{◌≡◌};
ghost use Rattle.tandem_base.specs.CsrNumbers as csr;

/// mstatus: the status of the hart.
pub const MSTATUS: u16 = 0x300;

/// mie: which interrupts are enabled.
pub const MIE: u16 = 0x304;

/// mtvec: where traps are handled.
pub const MTVEC: u16 = 0x305;

/// mscratch: a register for the trap handler.
pub const MSCRATCH: u16 = 0x340;

/// mepc: the pc of the instruction that trapped.
pub const MEPC: u16 = 0x341;

/// mcause: the cause of the trap.
pub const MCAUSE: u16 = 0x342;

/// mtval: the value of the trap.
pub const MTVAL: u16 = 0x343;

/// mip: which interrupts are pending.
pub const MIP: u16 = 0x344;

/// cycle: cycles that were executed.
pub const CYCLE: u16 = 0xC00;

/// time: real time.
pub const TIME: u16 = 0xC01;

/// instret: instructions that were retired.
pub const INSTRET: u16 = 0xC02;

/// mhartid: the number of the hart.
pub const MHARTID: u16 = 0xF14;

/// The constants are the numbers of the definitions: a law, with nothing to do.
pub fn csrs_have_their_numbers()
    ensures mstatus { MSTATUS ≡ csr.mstatus }
    ensures mie { MIE ≡ csr.mie }
    ensures mtvec { MTVEC ≡ csr.mtvec }
    ensures mscratch { MSCRATCH ≡ csr.mscratch }
    ensures mepc { MEPC ≡ csr.mepc }
    ensures mcause { MCAUSE ≡ csr.mcause }
    ensures mtval { MTVAL ≡ csr.mtval }
    ensures mip { MIP ≡ csr.mip }
    ensures cycle { CYCLE ≡ csr.cycle }
    ensures time { TIME ≡ csr.time }
    ensures instret { INSTRET ≡ csr.instret }
    ensures mhartid { MHARTID ≡ csr.mhartid }
{}
