//! What a cycle does: an exception, or the row of its instruction.

ghost use Rattle.std.specs.Prelude.{◌≡◌, ◌<◌, length, IfErr};
ghost use Rattle.s2_decode.specs.Properness.{IsProper};
ghost use Rattle.s2_cp0.specs.ControlRegisters.{is_interrupted};
ghost use Rattle.s2_cpu.specs.Exceptions.{IsException};
ghost use Rattle.s2_cpu.specs.Processor.{Processor};
ghost use Rattle.s2_decode.specs.Table.{decoded};
ghost use Rattle.s2_machine.specs.InstructionRows.{step_of_instruction, step_of};
ghost use Rattle.s2_machine.specs.StepRanges.{IsSound};
ghost use Rattle.s2_core.specs.TestOrder.{guarded_step, step_of_fetch};

use crate::branches::{branch, jump, jump_to_register};
use crate::computation::{
    load_upper, move_from, move_to, multiply_or_divide, shift_by_amount, three_registers,
    with_immediate,
};
use crate::fetch::fetch;
use crate::memory_access::access_memory;
use crate::system_rows::{read_control, write_control, write_indexed, write_random};
use s2_base::LOCAL_WORDS;
use s2_cp0::{BP, INT, RI, SYS};
use s2_cpu::{Cpu, Exc};
use s2_decode::{Instr, decode, unit};
use s2_machine::Step;
use s2_store::Store;

/// A row of coprocessor 0, where that is usable.
fn guarded(cpu: &Cpu, step: Step) -> Step
    requires { IsSound step }
    ensures step { result ≡ guarded_step cpu.now step }
    ensures sound { IsSound result }
{
    if cpu.cp0.is_usable() {
        step
    } else {
        Step::Raise(Exc::unusable(0))
    }
}

/// A word of coprocessor 1, 2 or 3, which are never usable.
fn foreign(unit: u8, word: u32) -> Step
    requires { decoded word ≡ Instr.Foreign unit word }
    ensures step { (p : Processor) → result ≡ step_of_instruction p (Instr.Foreign unit word) }
    ensures sound { IsSound result }
{
    let _word = word;
    Step::Raise(Exc::unusable(unit))
}

/// A word that is in no row: it is reserved, unless it needs coprocessor 0 where that is not usable.
fn reserved(cpu: &Cpu, word: u32) -> Step
    ensures step { result ≡ step_of_instruction cpu.now (Instr.Reserved word) }
    ensures sound { IsSound result }
{
    let needs_unit = unit(&Instr::Reserved(word)).is_some();
    if needs_unit && !cpu.cp0.is_usable() {
        Step::Raise(Exc::unusable(0))
    } else {
        Step::Raise(Exc::plain(RI))
    }
}

/// What an instruction does that was fetched.
pub fn execute(cpu: &Cpu, instr: Instr) -> Step
    requires { IsProper instr }
    ensures step { result ≡ step_of_instruction cpu.now instr }
    ensures sound { IsSound result }
{
    match instr {
        Instr::Three { op, rd, rs, rt } => three_registers(cpu, op, rd, rs, rt),
        Instr::Shift { op, rd, rt, sa } => shift_by_amount(cpu, op, rd, rt, sa),
        Instr::Imm { op, rt, rs, imm } => with_immediate(cpu, op, rt, rs, imm),
        Instr::Lui { rt, imm } => load_upper(rt, imm),
        Instr::MulDiv { op, rs, rt } => multiply_or_divide(cpu, op, rs, rt),
        Instr::MoveFrom { hi, rd } => move_from(cpu, hi, rd),
        Instr::MoveTo { hi, rs } => move_to(cpu, hi, rs),
        Instr::Jump { link, target } => jump(cpu, link, target),
        Instr::JumpReg { rs } => jump_to_register(cpu, rs, 0),
        Instr::JumpLinkReg { rd, rs } => jump_to_register(cpu, rs, rd),
        Instr::Branch { op, rs, rt, off } => branch(cpu, op, rs, rt, off),
        Instr::Memory { op, rt, base, off } => access_memory(cpu, op, rt, base, off),
        Instr::Syscall => Step::Raise(Exc::plain(SYS)),
        Instr::Break => Step::Raise(Exc::plain(BP)),
        Instr::Mfc0 { rt, rd } => guarded(cpu, read_control(cpu, rt, rd)),
        Instr::Mtc0 { rt, rd } => guarded(cpu, write_control(cpu, rt, rd)),
        Instr::Tlbr => guarded(cpu, Step::ReadEntry),
        Instr::Tlbwi => guarded(cpu, write_indexed(cpu)),
        Instr::Tlbwr => guarded(cpu, write_random(cpu)),
        Instr::Tlbp => guarded(cpu, Step::ProbeEntry),
        Instr::Rfe => guarded(cpu, Step::Restore),
        Instr::Foreign { unit, word } => foreign(unit, word),
        Instr::Reserved(word) => reserved(cpu, word),
    }
}

/// What a cycle does whose fetch gave this.
fn execute_fetched(cpu: &Cpu, word: Result<u32, Exc>) -> Step
    requires { IfErr word IsException }
    ensures step { result ≡ step_of_fetch cpu.now word }
    ensures sound { IsSound result }
{
    match word {
        Ok(word) => execute(cpu, decode(word)),
        Err(exc) => Step::Raise(exc),
    }
}

/// Whether an enabled interrupt is up.
#[inline(always)]
pub fn interrupted(cpu: &Cpu) -> bool
    ensures { result ≡ is_interrupted cpu.now.cp0 cpu.now.lines }
{
    cpu.cp0.pending(cpu.lines)
}

/// What the next cycle does.
pub fn step<S: Store>(cpu: &Cpu, store: &S) -> Step
    requires { length (S.words store.now) ≡ LOCAL_WORDS }
    ensures step { result ≡ step_of cpu.now (S.words store.now) }
    ensures sound { IsSound result }
{
    if interrupted(cpu) {
        return Step::Raise(Exc::plain(INT));
    }
    execute_fetched(cpu, fetch(cpu, store))
}
