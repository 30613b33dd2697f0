//! The processor after a step.

ghost use Rattle.std.specs.Prelude.{◌≡◌, ◌<◌, ℕ, Bool, List, IfSome};
ghost use Rattle.s2_tlb.specs.TlbLookup.{probe_of};
ghost use Rattle.s2_cpu.specs.Exceptions.{IsException};
ghost use Rattle.s2_machine.specs.StepRanges.{IsSound};
ghost use Rattle.s2_machine.specs.WriteBack.{after_count, row_base, at_next_instruction, after_raise, after_set, after_set_hi_lo, after_jump, after_delay, after_load, after_set_control, after_read_entry, after_write_entry, after_probe, after_restore, after_step};
ghost use Rattle.s2_core.specs.Working.{IsCarriedOut};

use crate::memory_access::{loaded_value, merge_base};
use s2_cpu::{Cpu, Exc};
use s2_decode::OpM;
use s2_machine::Step;
use s2_tlb::{TLB_ENTRIES, Tlb};

/// The cycle counts.
#[inline(always)]
fn count(cpu: &mut Cpu)
    ensures { cpu.new ≡ after_count cpu.old }
{
    cpu.run = cpu.run.wrapping_add(1);
}

/// An exception is taken.
#[cold]
#[inline(never)]
pub fn raise(cpu: &mut Cpu, exc: Exc)
    requires { IsException exc }
    ensures { cpu.new ≡ after_raise cpu.old exc }
{
    cpu.enter(exc);
    count(cpu);
}

/// The pending load is written, and the cycle counts.
#[inline(always)]
fn settle(cpu: &mut Cpu)
    ensures { cpu.new ≡ row_base cpu.old }
{
    cpu.write_load();
    count(cpu);
}

/// And the next instruction follows.
#[inline(always)]
pub fn follow(cpu: &mut Cpu)
    ensures { cpu.new ≡ at_next_instruction cpu.old }
{
    settle(cpu);
    cpu.pc = cpu.npc;
    cpu.npc = cpu.npc.wrapping_add(4);
    cpu.slot = false;
}

/// A register is written, after the pending load.
#[inline(always)]
pub fn set(cpu: &mut Cpu, reg: u8, value: u32)
    requires { reg < 32 }
    ensures { cpu.new ≡ after_set cpu.old reg value }
{
    follow(cpu);
    cpu.r.set(reg, value);
}

/// HI and LO are written.
#[inline(always)]
fn set_hi_lo(cpu: &mut Cpu, hi: u32, lo: u32)
    ensures { cpu.new ≡ after_set_hi_lo cpu.old hi lo }
{
    follow(cpu);
    cpu.hi = hi;
    cpu.lo = lo;
}

/// A branch or a jump.
#[inline(always)]
pub fn jump(cpu: &mut Cpu, target: Option<u32>, link: u8)
    requires { link < 32 }
    ensures { cpu.new ≡ after_jump cpu.old target link }
{
    let next = target.unwrap_or(cpu.npc.wrapping_add(4));
    settle(cpu);
    let after = cpu.pc.wrapping_add(8);
    cpu.pc = cpu.npc;
    cpu.npc = next;
    cpu.slot = true;
    cpu.r.set(link, after);
}

/// A word is pending for a register.
#[inline(always)]
fn delay(cpu: &mut Cpu, reg: u8, value: u32)
    requires { reg < 32 }
    ensures { cpu.new ≡ after_delay cpu.old reg value }
{
    follow(cpu);
    cpu.load_reg = reg;
    cpu.load_value = if reg == 0 { 0 } else { value };
}

/// A load that read a word.
#[inline(always)]
pub fn load(cpu: &mut Cpu, op: OpM, reg: u8, byte: u8, word: u32)
    requires reg { reg < 32 }
    requires byte { byte < 4 }
    ensures { cpu.new ≡ after_load cpu.old op reg byte word }
{
    let old = merge_base(cpu, reg);
    delay(cpu, reg, loaded_value(op, byte, old, word));
}

/// A register of coprocessor 0 is written.
fn set_control(cpu: &mut Cpu, reg: u8, value: u32)
    requires { reg < 32 }
    ensures { cpu.new ≡ after_set_control cpu.old reg value }
{
    follow(cpu);
    cpu.cp0.write(reg, value);
}

/// EntryHi and EntryLo take the entry that Index names.
fn read_entry(cpu: &mut Cpu)
    ensures { cpu.new ≡ after_read_entry cpu.old }
{
    follow(cpu);
    let (hi, lo) = cpu.tlb.read(cpu.cp0.index());
    cpu.cp0.set_entry(hi, lo);
}

/// An entry takes EntryHi and EntryLo.
fn write_entry(cpu: &mut Cpu, index: u32)
    requires { index < 64 }
    ensures { cpu.new ≡ after_write_entry cpu.old index }
{
    follow(cpu);
    let (hi, lo) = cpu.cp0.entry();
    cpu.tlb.write(index, hi, lo);
}

/// The number of the entry that matches a word such as EntryHi holds.
fn probe(tlb: &Tlb, hi: u32) -> Option<u32>
    ensures value { result ≡ probe_of tlb.now hi }
    ensures within { IfSome result (λ i. i < TLB_ENTRIES) }
{
    tlb.well_formed();
    tlb.probe(hi)
}

/// Index takes the number of the entry that matches EntryHi.
fn probe_entry(cpu: &mut Cpu)
    ensures { cpu.new ≡ after_probe cpu.old }
{
    follow(cpu);
    let (hi, _) = cpu.cp0.entry();
    let found = probe(&cpu.tlb, hi);
    cpu.cp0.set_probed(found);
}

/// The saved modes return.
fn restore(cpu: &mut Cpu)
    ensures { cpu.new ≡ after_restore cpu.old }
{
    follow(cpu);
    cpu.cp0.pop();
}

/// The processor after a step, of which a load read a word.
pub fn write_back(cpu: &mut Cpu, step: Step, word: u32)
    requires { IsSound step }
    ensures { cpu.new ≡ after_step cpu.old step word }
{
    match step {
        Step::Raise(exc) => raise(cpu, exc),
        Step::Proceed | Step::Store { .. } => follow(cpu),
        Step::Set { reg, value } => set(cpu, reg, value),
        Step::SetHiLo { hi, lo } => set_hi_lo(cpu, hi, lo),
        Step::Jump { target, link } => jump(cpu, target, link),
        Step::Delay { reg, value } => delay(cpu, reg, value),
        Step::Load { op, reg, byte, .. } => load(cpu, op, reg, byte, word),
        Step::SetControl { reg, value } => set_control(cpu, reg, value),
        Step::ReadEntry => read_entry(cpu),
        Step::WriteEntry { index } => write_entry(cpu, index),
        Step::ProbeEntry => probe_entry(cpu),
        Step::Restore => restore(cpu),
    }
}

/// An exception.
#[inline(always)]
pub fn raised(cpu: &mut Cpu, exc: Exc) -> bool
    requires { IsException exc }
    ensures { (local : List ℕ) (marks : List Bool)
        → IsCarriedOut cpu.old local marks (Step.Raise exc) result cpu.new local marks }
{
    raise(cpu, exc);
    true
}
