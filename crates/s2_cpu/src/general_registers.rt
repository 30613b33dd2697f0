//! The general registers.

ghost use Rattle.std.specs.Prelude.{◌≡◌, ◌<◌, slice_index};
ghost use Rattle.s2_cpu.specs.GeneralRegisters.{zero_registers, register_set, AreGeneralRegisters};

use std::marker::Model;

/// How many general registers there are (MIPS R2000).
pub const REGISTERS: usize = 32;

/// The general registers, seen as a list of 32 words whose first is 0.
#[derive(Drop)]
pub struct Regs {
    words: [u32; REGISTERS],
}

impl Model for Regs {
    ghost use Rattle.std.specs.Prelude.{◌≡◌, ℕ, List, slice_index};

    ghost Value = { List ℕ };

    ghost view = { λ r. r.words };

    ghost invariant = { λ r. slice_index r.words 0 ≡ 0 };
}

impl Regs {
    /// All of them 0.
    pub fn new() -> Regs
        ensures { result ≡ zero_registers }
    {
        Regs {
            words: [0; REGISTERS],
        }
    }

    /// The word of register `n`, which is below 32.
    pub fn get(&self, n: u8) -> u32
        requires { n < REGISTERS }
        ensures word { result ≡ slice_index self.now n }
        ensures zero { slice_index self.now 0 ≡ 0 }
    {
        self.words[n as usize]
    }

    /// Writes register `n`, which is below 32; register 0 stays 0.
    ///
    /// Source: MIPS R2000, the general registers.
    pub fn set(&mut self, n: u8, v: u32)
        requires { n < REGISTERS }
        ensures { self.new ≡ register_set self.old n v }
    {
        self.words[n as usize] = v;
        self.words[0] = 0;
    }

    /// The registers become those of another processor.
    pub fn copy_from(&mut self, other: &Regs)
        ensures { self.new ≡ other.now }
    {
        self.words = other.words;
    }

    /// What the general registers are: 32 words, of which the first is 0. It does nothing, and tells a caller
    /// so of the registers that it holds.
    pub fn well_formed(&self)
        ensures { AreGeneralRegisters self.now }
    {
        let _words = &self.words;
    }
}
