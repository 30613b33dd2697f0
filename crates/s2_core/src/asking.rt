//! The step of a cycle that asks, found by the ways of local memory and of remembered pages, on which most cycles
//! that ask fetch and reach what they ask for.

ghost use Rattle.std.specs.Prelude.{◌≡◌, ◌<◌, ◌%◌, ℕ, length};
ghost use Rattle.s2_decode.specs.Table.{decoded};
ghost use Rattle.s2_machine.specs.InstructionRows.{step_of_instruction, step_of};
ghost use Rattle.s2_machine.specs.MemoryAccess.{effective_address};
ghost use Rattle.s2_machine.specs.StepRanges.{IsSound};
ghost use Rattle.s2_core.specs.TestOrder.{access_step, reached_step};
ghost use Rattle.s2_core.specs.Working.{IsReach};

use crate::instruction_rows::{execute, step};
use crate::memory_access::reached_step;
use crate::reach::{Reach, effective_address, is_aligned, reach_address, reach_virtual};
use crate::recalled::{known_address, local_fetch};
use s2_base::LOCAL_WORDS;
use s2_cpu::Cpu;
use s2_decode::{Instr, OpM, decode};
use s2_machine::Step;
use s2_store::Store;

/// What a row reaches at a virtual address, as most that ask reach it.
#[inline(always)]
fn reach_known(cpu: &Cpu, op: OpM, va: u32) -> Reach
    ensures step { (rt : ℕ) → reached_step cpu.now op rt (va % 4) result ≡ access_step cpu.now op rt va }
    ensures sound { IsReach result }
{
    if !is_aligned(op, va) {
        return reach_virtual(cpu, op, va);
    }
    match known_address(cpu, op, va) {
        Some(pa) => reach_address(cpu, op, pa),
        None => reach_virtual(cpu, op, va),
    }
}

/// The row of a load or store.
#[inline(always)]
fn access_known(cpu: &Cpu, op: OpM, rt: u8, base: u8, off: u16) -> Step
    requires rt { rt < 32 }
    requires base { base < 32 }
    ensures step { result ≡ access_step cpu.now op rt (effective_address cpu.now base off) }
    ensures sound { IsSound result }
{
    let va = effective_address(cpu, base, off);
    reached_step(cpu, op, rt, (va % 4) as u8, reach_known(cpu, op, va))
}

/// What the instruction of a word does.
#[inline(always)]
fn execute_known(cpu: &Cpu, word: u32) -> Step
    ensures step { result ≡ step_of_instruction cpu.now (decoded word) }
    ensures sound { IsSound result }
{
    let instr = decode(word);
    match instr {
        Instr::Memory { op, rt, base, off } => access_known(cpu, op, rt, base, off),
        _ => execute(cpu, instr),
    }
}

/// What the next cycle does, as [`step`](crate::step) says; quicker where it asks for an access of global memory.
///
/// The store has `LOCAL_WORDS` words.
pub fn asking_step<S: Store>(cpu: &Cpu, store: &S) -> Step
    requires { length (S.words store.now) ≡ LOCAL_WORDS }
    ensures step { result ≡ step_of cpu.now (S.words store.now) }
    ensures sound { IsSound result }
{
    match local_fetch(cpu) {
        Some(index) => execute_known(cpu, store.word(index)),
        None => step(cpu, store),
    }
}
