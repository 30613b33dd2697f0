//! The whole state of a processor.

ghost use Rattle.std.specs.Prelude.{◌≡◌, ◌<◌};
ghost use Rattle.s2_cpu.specs.Processor.{start_of, after_load_delay};

use crate::general_registers::Regs;
use s2_cp0::Cp0;
use s2_tlb::Tlb;
use std::marker::Model;

/// The state of a processor.
#[derive(Drop)]
pub struct Cpu {
    /// The general registers.
    pub r: Regs,
    /// HI.
    pub hi: u32,
    /// LO.
    pub lo: u32,
    /// The virtual address of the next cycle's instruction.
    pub pc: u32,
    /// The virtual address of the instruction after that one.
    pub npc: u32,
    /// Whether the next cycle's instruction stands in a delay slot.
    pub slot: bool,
    /// The register that the pending load takes, below 32; 0 where no load is pending.
    pub load_reg: u8,
    /// The word that it takes.
    pub load_value: u32,
    /// Coprocessor 0.
    pub cp0: Cp0,
    /// The translation lookaside buffer.
    pub tlb: Tlb,
    /// How many cycles were run, modulo 2^64.
    pub run: u64,
    /// The interrupt lines of the devices, below 4.
    pub lines: u8,
}

impl Model for Cpu {
    ghost use Rattle.std.specs.Prelude.{◌<◌};
    ghost use Rattle.s2_cpu.specs.Processor.{Processor};

    ghost Value = { Processor };

    ghost view = { λ c. record {
      r = c.r;
      hi = c.hi;
      lo = c.lo;
      pc = c.pc;
      npc = c.npc;
      slot = c.slot;
      load_reg = c.load_reg;
      load_value = c.load_value;
      cp0 = c.cp0;
      tlb = c.tlb;
      run = c.run;
      lines = c.lines;
    } };

    ghost invariant = { λ c. (c.load_reg < 32) × (c.lines < 4) };
}

impl Cpu {
    /// The state at the start of a program, whose first instruction stands at a virtual address.
    ///
    /// Source: this project's own. All is 0, which means kernel mode with interrupts off.
    pub fn start(entry: u32) -> Cpu
        ensures { result ≡ start_of entry }
    {
        Cpu {
            r: Regs::new(),
            hi: 0,
            lo: 0,
            pc: entry,
            npc: entry.wrapping_add(4),
            slot: false,
            load_reg: 0,
            load_value: 0,
            cp0: Cp0::new(),
            tlb: Tlb::new(),
            run: 0,
            lines: 0,
        }
    }

    /// The state becomes that of another processor. It takes no memory.
    pub fn copy_from(&mut self, other: &Cpu)
        ensures { self.new ≡ other.now }
    {
        self.r.copy_from(&other.r);
        self.hi = other.hi;
        self.lo = other.lo;
        self.pc = other.pc;
        self.npc = other.npc;
        self.slot = other.slot;
        self.load_reg = other.load_reg;
        self.load_value = other.load_value;
        self.cp0 = other.cp0;
        self.tlb.copy_from(&other.tlb);
        self.run = other.run;
        self.lines = other.lines;
    }

    /// What every processor keeps: the pending load's register is one of the 32, and there are two lines.
    pub fn within_ranges(&self)
        ensures load_reg { self.now.load_reg < 32 }
        ensures lines { self.now.lines < 4 }
    {
        let _reg = &self.load_reg;
    }

    /// The pending load is written, and none is pending.
    ///
    /// Source: MIPS R2000, the delay of loads.
    pub fn write_load(&mut self)
        ensures { self.new ≡ after_load_delay self.old }
    {
        self.r.set(self.load_reg, self.load_value);
        self.load_reg = 0;
        self.load_value = 0;
    }
}
