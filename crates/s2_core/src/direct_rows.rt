//! The rows that most programs use most, carried out on the processor directly: they compute, branch and jump.
//! They ask nothing, so what carries one out says that it is done.

ghost use Rattle.std.specs.Prelude.{◌≡◌, ◌<◌, ◌^◌, List, ℕ, Bool, IfSome};
ghost use Rattle.s2_decode.specs.Table.{decoded};
ghost use Rattle.s2_machine.specs.Branches.{branch_link, branch_step};
ghost use Rattle.s2_machine.specs.InstructionRows.{step_of_instruction};
ghost use Rattle.s2_core.specs.TestOrder.{set_or_overflow};
ghost use Rattle.s2_machine.specs.WriteBack.{after_jump};
ghost use Rattle.s2_core.specs.Working.{IsCarriedOut};

use crate::branches::{branch_target, jump_target, link_register};
use crate::write_back;
use crate::write_back::{raise, set};
use s2_alu::{immediate, shift, three};
use s2_cp0::OV;
use s2_cpu::{Cpu, Exc};
use s2_decode::{Instr, OpB, fields};
use s2_machine::Step;

/// A row that sets a register, or overflows where it has no value.
#[inline(always)]
pub fn set_or_overflow(cpu: &mut Cpu, reg: u8, value: Option<u32>) -> bool
    requires { reg < 32 }
    ensures { (local : List ℕ) (marks : List Bool)
        → IsCarriedOut cpu.old local marks (set_or_overflow reg value) result cpu.new local marks }
{
    match value {
        Some(value) => set(cpu, reg, value),
        None => raise(cpu, Exc::plain(OV)),
    }
    true
}

/// The register that a row sets, and its value, or none where it overflows; `None` for a row that does more. The
/// operands are the fields of the word.
#[inline(always)]
pub fn computed(cpu: &Cpu, instr: Instr, word: u32) -> Option<(u8, Option<u32>)>
    requires { instr ≡ decoded word }
    ensures step { IfSome result (λ set. set_or_overflow set.0 set.1 ≡ step_of_instruction cpu.now instr) }
    ensures reg { IfSome result (λ set. set.0 < 32) }
{
    match instr {
        Instr::Three { op, .. } => {
            let value = three(op, cpu.r.get(fields::rs(word)), cpu.r.get(fields::rt(word)));
            Some((fields::rd(word), value))
        }
        Instr::Shift { op, .. } => {
            let value = shift(op, cpu.r.get(fields::rt(word)), fields::amount(word) as u32);
            Some((fields::rd(word), Some(value)))
        }
        Instr::Imm { op, .. } => {
            let value = immediate(op, cpu.r.get(fields::rs(word)), fields::immediate(word));
            Some((fields::rt(word), value))
        }
        Instr::Lui { .. } => {
            let value = fields::immediate(word) as u32 * 65536;
            Some((fields::rt(word), Some(value)))
        }
        _ => None,
    }
}

/// A jump with a link, apart from the rows that are used more.
#[inline(never)]
fn jump_and_link(cpu: &mut Cpu, target: Option<u32>, link: u8)
    requires { link < 32 }
    ensures { cpu.new ≡ after_jump cpu.old target link }
{
    write_back::jump(cpu, target, link);
}

/// A branch or a jump.
#[inline(always)]
fn go_to(cpu: &mut Cpu, target: Option<u32>, link: u8) -> bool
    requires { link < 32 }
    ensures { (local : List ℕ) (marks : List Bool)
        → IsCarriedOut cpu.old local marks (Step.Jump target link) result cpu.new local marks }
{
    if link == 0 {
        write_back::jump(cpu, target, 0);
    } else {
        jump_and_link(cpu, target, link);
    }
    true
}

/// A jump within the 256 MiB of the delay slot.
#[inline(always)]
pub fn jump(cpu: &mut Cpu, link: bool, target: u32) -> bool
    requires { target < 2 ^ 26 }
    ensures { (local : List ℕ) (marks : List Bool)
        → IsCarriedOut cpu.old local marks (step_of_instruction cpu.old (Instr.Jump link target)) result cpu.new local marks }
{
    let address = jump_target(cpu, target);
    go_to(cpu, Some(address), link_register(link))
}

/// A jump to the address in a register.
#[inline(always)]
pub fn jump_to_register(cpu: &mut Cpu, rs: u8) -> bool
    requires { rs < 32 }
    ensures { (local : List ℕ) (marks : List Bool)
        → IsCarriedOut cpu.old local marks (step_of_instruction cpu.old (Instr.JumpReg rs)) result cpu.new local marks }
{
    let address = cpu.r.get(rs);
    go_to(cpu, Some(address), 0)
}

/// A branch without a link, relative to the delay slot.
#[inline(always)]
pub fn branch(cpu: &mut Cpu, op: OpB, rs: u8, rt: u8, off: u16) -> bool
    requires link { branch_link op ≡ 0 }
    requires rs { rs < 32 }
    requires rt { rt < 32 }
    ensures { (local : List ℕ) (marks : List Bool)
        → IsCarriedOut cpu.old local marks (branch_step cpu.old op rs rt off) result cpu.new local marks }
{
    let target = branch_target(cpu, op, rs, rt, off);
    go_to(cpu, target, 0)
}
