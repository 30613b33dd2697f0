//! The rows of coprocessor 0, and the coprocessors that are not usable.

ghost use Rattle.std.specs.Prelude.{◌≡◌, ◌<◌};
ghost use Rattle.s2_machine.specs.SystemRows.{control_read_step, control_write_step, indexed_write_step, random_write_step};
ghost use Rattle.s2_machine.specs.StepRanges.{IsSound};

use s2_cp0::random_index;
use s2_cpu::Cpu;
use s2_machine::Step;

/// MFC0: a register takes register `rd` of coprocessor 0, one instruction later.
pub fn read_control(cpu: &Cpu, rt: u8, rd: u8) -> Step
    requires rt { rt < 32 }
    requires rd { rd < 32 }
    ensures step { result ≡ control_read_step cpu.now rt rd }
    ensures sound { IsSound result }
{
    Step::Delay {
        reg: rt,
        value: cpu.cp0.read(rd, cpu.run, cpu.lines),
    }
}

/// MTC0: register `rd` of coprocessor 0 takes a register.
pub fn write_control(cpu: &Cpu, rt: u8, rd: u8) -> Step
    requires rt { rt < 32 }
    requires rd { rd < 32 }
    ensures step { result ≡ control_write_step cpu.now rt rd }
    ensures sound { IsSound result }
{
    Step::SetControl {
        reg: rd,
        value: cpu.r.get(rt),
    }
}

/// TLBWI: the entry that Index names is written.
pub fn write_indexed(cpu: &Cpu) -> Step
    ensures step { result ≡ indexed_write_step cpu.now }
    ensures sound { IsSound result }
{
    Step::WriteEntry {
        index: cpu.cp0.index(),
    }
}

/// TLBWR: a random entry is written.
pub fn write_random(cpu: &Cpu) -> Step
    ensures step { result ≡ random_write_step cpu.now }
    ensures sound { IsSound result }
{
    Step::WriteEntry {
        index: random_index(cpu.run),
    }
}
