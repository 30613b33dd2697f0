//! The rows that branch and jump: where they go and what they link, and their steps.

ghost use Rattle.std.specs.Prelude.{◌≡◌, ◌<◌, ◌^◌, Some, None, if◌then◌else◌};
ghost use Rattle.s2_alu.specs.Arithmetic.{is_taken};
ghost use Rattle.s2_cpu.specs.Processor.{register};
ghost use Rattle.s2_decode.specs.Properness.{IsBranchRegister};
ghost use Rattle.s2_machine.specs.Branches.{jump_target, jump_step, register_jump_step, branch_target, branch_link, branch_step};
ghost use Rattle.s2_machine.specs.StepRanges.{IsSound};

use s2_alu::taken;
use s2_base::sext16;
use s2_cpu::Cpu;
use s2_decode::OpB;
use s2_machine::Step;

/// The register that a jump or branch with a link sets.
const LINK: u8 = 31;

/// The register that a jump links, 0 for none.
#[inline(always)]
pub fn link_register(link: bool) -> u8
    ensures value { result ≡ (if link then 31 else 0) }
    ensures below { result < 32 }
{
    if link { LINK } else { 0 }
}

/// The register that a branch links, 0 for none.
#[inline(always)]
pub fn link_of(op: OpB) -> u8
    ensures link { result ≡ branch_link op }
    ensures below { result < 32 }
{
    match op {
        OpB::Bltzal | OpB::Bgezal => LINK,
        _ => 0,
    }
}

/// Where a jump goes.
#[inline(always)]
pub fn jump_target(cpu: &Cpu, target: u32) -> u32
    requires { target < 2 ^ 26 }
    ensures { result ≡ jump_target cpu.now target }
{
    cpu.npc / 0x1000_0000 * 0x1000_0000 + target * 4
}

/// Where a branch goes, if it is taken.
#[inline(always)]
pub fn branch_target(cpu: &Cpu, op: OpB, rs: u8, rt: u8, off: u16) -> Option<u32>
    requires rs { rs < 32 }
    requires rt { rt < 32 }
    ensures { result ≡ (if is_taken op (register cpu.now rs) (register cpu.now rt) then Some (branch_target cpu.now off) else None) }
{
    if taken(op, cpu.r.get(rs), cpu.r.get(rt)) {
        Some(cpu.npc.wrapping_add(sext16(off as u32).wrapping_mul(4)))
    } else {
        None
    }
}

/// A jump within the 256 MiB of the delay slot.
pub fn jump(cpu: &Cpu, link: bool, target: u32) -> Step
    requires { target < 2 ^ 26 }
    ensures step { result ≡ jump_step cpu.now link target }
    ensures sound { IsSound result }
{
    Step::Jump {
        target: Some(jump_target(cpu, target)),
        link: link_register(link),
    }
}

/// A jump to the address in a register, with the register that takes the link.
pub fn jump_to_register(cpu: &Cpu, rs: u8, link: u8) -> Step
    requires rs { rs < 32 }
    requires link { link < 32 }
    ensures step { result ≡ register_jump_step cpu.now rs link }
    ensures sound { IsSound result }
{
    Step::Jump {
        target: Some(cpu.r.get(rs)),
        link,
    }
}

/// A branch, relative to the delay slot.
pub fn branch(cpu: &Cpu, op: OpB, rs: u8, rt: u8, off: u16) -> Step
    requires rs { rs < 32 }
    requires rt { IsBranchRegister op rt }
    ensures step { result ≡ branch_step cpu.now op rs rt off }
    ensures sound { IsSound result }
{
    Step::Jump {
        target: branch_target(cpu, op, rs, rt, off),
        link: link_of(op),
    }
}
