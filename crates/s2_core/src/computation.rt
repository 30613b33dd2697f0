//! The steps of the rows that compute.

ghost use Rattle.std.specs.Prelude.{◌≡◌, ◌<◌, ◌*◌};
ghost use Rattle.s2_machine.specs.Computation.{shift_step, product_step, move_from_step, move_to_step};
ghost use Rattle.s2_machine.specs.InstructionRows.{step_of_instruction};
ghost use Rattle.s2_machine.specs.StepRanges.{IsSound};
ghost use Rattle.s2_core.specs.TestOrder.{set_or_overflow};

use s2_alu::{immediate, mul_div, shift, three};
use s2_cp0::OV;
use s2_cpu::{Cpu, Exc};
use s2_decode::{Instr, Op3, OpD, OpI, OpS};
use s2_machine::Step;

/// A row that sets a register, or overflows where it has no value.
fn set_or_overflow(reg: u8, value: Option<u32>) -> Step
    requires { reg < 32 }
    ensures step { result ≡ set_or_overflow reg value }
    ensures sound { IsSound result }
{
    match value {
        Some(value) => Step::Set { reg, value },
        None => Step::Raise(Exc::plain(OV)),
    }
}

/// A row of three registers.
pub fn three_registers(cpu: &Cpu, op: Op3, rd: u8, rs: u8, rt: u8) -> Step
    requires rd { rd < 32 }
    requires rs { rs < 32 }
    requires rt { rt < 32 }
    ensures step { result ≡ step_of_instruction cpu.now (Instr.Three op rd rs rt) }
    ensures sound { IsSound result }
{
    set_or_overflow(rd, three(op, cpu.r.get(rs), cpu.r.get(rt)))
}

/// A row with an immediate.
pub fn with_immediate(cpu: &Cpu, op: OpI, rt: u8, rs: u8, imm: u16) -> Step
    requires rt { rt < 32 }
    requires rs { rs < 32 }
    ensures step { result ≡ step_of_instruction cpu.now (Instr.Imm op rt rs imm) }
    ensures sound { IsSound result }
{
    set_or_overflow(rt, immediate(op, cpu.r.get(rs), imm))
}

/// A shift by the amount in the word.
pub fn shift_by_amount(cpu: &Cpu, op: OpS, rd: u8, rt: u8, sa: u8) -> Step
    requires rd { rd < 32 }
    requires rt { rt < 32 }
    requires sa { sa < 32 }
    ensures step { result ≡ shift_step cpu.now op rd rt sa }
    ensures sound { IsSound result }
{
    Step::Set {
        reg: rd,
        value: shift(op, cpu.r.get(rt), sa as u32),
    }
}

/// LUI: the immediate in the upper half.
pub fn load_upper(rt: u8, imm: u16) -> Step
    requires { rt < 32 }
    ensures step { result ≡ Step.Set rt (imm * 65536) }
    ensures sound { IsSound result }
{
    Step::Set {
        reg: rt,
        value: imm as u32 * 65536,
    }
}

/// A multiplication or a division, into HI and LO.
pub fn multiply_or_divide(cpu: &Cpu, op: OpD, rs: u8, rt: u8) -> Step
    requires rs { rs < 32 }
    requires rt { rt < 32 }
    ensures step { result ≡ product_step cpu.now op rs rt }
    ensures sound { IsSound result }
{
    let (hi, lo) = mul_div(op, cpu.r.get(rs), cpu.r.get(rt));
    Step::SetHiLo { hi, lo }
}

/// A move from HI, or from LO.
pub fn move_from(cpu: &Cpu, hi: bool, rd: u8) -> Step
    requires { rd < 32 }
    ensures step { result ≡ move_from_step cpu.now hi rd }
    ensures sound { IsSound result }
{
    Step::Set {
        reg: rd,
        value: if hi { cpu.hi } else { cpu.lo },
    }
}

/// A move to HI, or to LO; the other one stays.
pub fn move_to(cpu: &Cpu, hi: bool, rs: u8) -> Step
    requires { rs < 32 }
    ensures step { result ≡ move_to_step cpu.now hi rs }
    ensures sound { IsSound result }
{
    let word = cpu.r.get(rs);
    if hi {
        Step::SetHiLo {
            hi: word,
            lo: cpu.lo,
        }
    } else {
        Step::SetHiLo {
            hi: cpu.hi,
            lo: word,
        }
    }
}
