//! A hart: its pc, its registers and its CSRs.

ghost use Rattle.std.specs.Prelude.{◌≡◌, ◌%◌, ◌<◌, slice_index};
ghost use Rattle.rv_step.specs.Harts.{at_start, next_of, hart_poked, x_of};
ghost use Rattle.msg_frames.specs.Frames.{FitsTarget};

use csr_file::Csrs;
use msg_frames::{Poke, Target};
use std::marker::Model;

mod committing;
mod csr_use;
mod effects;
mod planning;

/// A hart of the reference model. Contracts see its pc, its registers, its CSRs, and how many
/// instructions it retired without a trap.
#[derive(Clone, Copy, Debug, PartialEq, Eq)]
pub struct Hart {
    pc: u64,
    registers: [u64; 32],
    csrs: Csrs,
    retired: u64,
}

impl Model for Hart {
    ghost use Rattle.std.specs.Prelude.{◌≡◌, ◌%◌, length, slice_index};
    ghost use Rattle.rv_step.specs.Harts.{HartState};

    ghost Value = { HartState };

    ghost view = { λ h. record { pc = h.pc; registers = h.registers; csrs = h.csrs; retired = h.retired } };

    ghost invariant = { λ h. (h.pc % 4 ≡ 0) × (length h.registers ≡ 32) × (slice_index h.registers 0 ≡ 0) };

    ghost inverse = { λ v. record { pc = v.pc; registers = v.registers; csrs = v.csrs; retired = v.retired } };
}

impl Hart {
    /// A hart of this number at the start: all registers are 0. The pc has to be a multiple of 4,
    /// and stays one.
    pub fn new(number: u8, pc: u64) -> Hart
        requires { pc % 4 ≡ 0 }
        ensures { result ≡ at_start number pc }
    {
        Hart {
            pc,
            registers: [0; 32],
            csrs: Csrs::new(number),
            retired: 0,
        }
    }

    /// The address of the hart's next instruction, a multiple of 4.
    pub fn pc(&self) -> u64
        ensures value { result ≡ self.now.pc }
        ensures aligned { result % 4 ≡ 0 }
    {
        self.pc
    }

    /// Sets the pc, a register or a CSR from outside. A CSR keeps what a write of it keeps.
    pub fn poke(&mut self, poke: &Poke)
        requires { FitsTarget poke.now.target poke.now.value }
        ensures { self.new ≡ hart_poked self.old poke.now.target poke.now.value }
    {
        match poke.target {
            Target::Pc => self.pc = poke.value,
            Target::X(number) => self.registers[number as usize] = poke.value,
            Target::Csr(number) => {
                self.csrs.write(number, poke.value);
            }
        }
    }

    /// The value of a register.
    fn x(&self, number: u8) -> u64
        requires { number < 32 }
        ensures { result ≡ x_of self.now number }
    {
        self.registers[number as usize]
    }

    /// The address of the word behind the instruction.
    fn next(&self) -> u64
        ensures value { result ≡ next_of self.now }
        ensures aligned { result % 4 ≡ 0 }
    {
        self.pc.wrapping_add(4)
    }
}
