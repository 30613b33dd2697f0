//! The program of a workload, an instruction a line.
//!
//! It computes numbers of a linear congruential generator. Source: Numerical Recipes in C, section 7.1, for
//! the generator; the program is this project's own.

ghost use Rattle.std.specs.Prelude.{◌≡◌, ◌/◌, ◌%◌, ◌≤◌, false};
ghost use Rattle.s2_gen.specs.WorkloadProgram.{upper, lower, program};
ghost use Rattle.s2_gen.specs.ProgramImage.{AreProper};
ghost use Rattle.s2_gen.specs.declared.workloads.TheConstants.{WORKLOADS};

use s2_base::{CONOUT, HALT, LOCAL_START, UNMAPPED_SIZE};
use s2_decode::{Instr, Op3, OpB, OpD, OpI, OpM, OpS};

/// The virtual address of the first instruction.
pub const START: u32 = 0x8001_0000;

/// The index of its word in the local list.
pub const FIRST_WORD: u32 = (START % UNMAPPED_SIZE - LOCAL_START) / 4;

/// How many instructions there are.
pub const LENGTH: usize = 23;

/// The virtual address of the first register of the devices, and that of the first word of global memory.
pub const DEVICE_ADDRESS: u32 = 0xBF00_0000;

pub const GLOBAL_ADDRESS: u32 = 0x8400_0000;

/// Where the console's register and the halt register stand behind the first register, in bytes.
pub const CONOUT_OFFSET: u32 = 4 * CONOUT;

pub const HALT_OFFSET: u32 = 4 * HALT;

/// The generator: the next number is this one times the multiplier, plus the increment, modulo 2^32.
pub const MULTIPLIER: u32 = 1_664_525;

pub const INCREMENT: u32 = 1_013_904_223;

/// How many numbers workload `n` computes: so many, and for each of `n` so many more.
pub const LEAST_ROUNDS: u32 = 65_536;

pub const ROUNDS_EACH: u32 = 256;

/// After how many numbers a byte is written: as many as a low byte has values.
pub const LOW_BYTE: u16 = 0x00FF;

/// Registers: of no value but 0, the address of the devices and that of global memory, the low byte of the
/// count, the byte to write, the number, the count of numbers to come, and the generator's two numbers.
pub const ZERO: u8 = 0;

pub const DEVICES: u8 = 8;

pub const GLOBAL: u8 = 9;

pub const LOW: u8 = 10;

pub const TOP: u8 = 11;

pub const NUMBER: u8 = 16;

pub const COUNT: u8 = 17;

pub const FACTOR: u8 = 18;

pub const SUMMAND: u8 = 19;

/// The upper half of a word.
fn upper(word: u32) -> u16
    ensures { result ≡ upper word }
{
    (word / 65_536) as u16
}

/// The lower half of a word.
fn lower(word: u32) -> u16
    ensures { result ≡ lower word }
{
    (word % 65_536) as u16
}

fn lui(rt: u8, imm: u16) -> Instr
    ensures { result ≡ Instr.Lui rt imm }
{
    Instr::Lui { rt, imm }
}

fn ori(rt: u8, rs: u8, imm: u16) -> Instr
    ensures { result ≡ Instr.Imm OpI.Ori rt rs imm }
{
    Instr::Imm {
        op: OpI::Ori,
        rt,
        rs,
        imm,
    }
}

fn andi(rt: u8, rs: u8, imm: u16) -> Instr
    ensures { result ≡ Instr.Imm OpI.Andi rt rs imm }
{
    Instr::Imm {
        op: OpI::Andi,
        rt,
        rs,
        imm,
    }
}

fn addiu(rt: u8, rs: u8, imm: u16) -> Instr
    ensures { result ≡ Instr.Imm OpI.Addiu rt rs imm }
{
    Instr::Imm {
        op: OpI::Addiu,
        rt,
        rs,
        imm,
    }
}

fn addu(rd: u8, rs: u8, rt: u8) -> Instr
    ensures { result ≡ Instr.Three Op3.Addu rd rs rt }
{
    Instr::Three {
        op: Op3::Addu,
        rd,
        rs,
        rt,
    }
}

fn multu(rs: u8, rt: u8) -> Instr
    ensures { result ≡ Instr.MulDiv OpD.Multu rs rt }
{
    Instr::MulDiv {
        op: OpD::Multu,
        rs,
        rt,
    }
}

fn mflo(rd: u8) -> Instr
    ensures { result ≡ Instr.MoveFrom false rd }
{
    Instr::MoveFrom { hi: false, rd }
}

fn srl(rd: u8, rt: u8, sa: u8) -> Instr
    ensures { result ≡ Instr.Shift OpS.Srl rd rt sa }
{
    Instr::Shift {
        op: OpS::Srl,
        rd,
        rt,
        sa,
    }
}

fn nop() -> Instr
    ensures { result ≡ Instr.Shift OpS.Sll ZERO ZERO 0 }
{
    Instr::Shift {
        op: OpS::Sll,
        rd: ZERO,
        rt: ZERO,
        sa: 0,
    }
}

fn bne(rs: u8, rt: u8, off: u16) -> Instr
    ensures { result ≡ Instr.Branch OpB.Bne rs rt off }
{
    Instr::Branch {
        op: OpB::Bne,
        rs,
        rt,
        off,
    }
}

fn sw(rt: u8, off: u32, base: u8) -> Instr
    ensures { result ≡ Instr.Memory OpM.Sw rt base (lower off) }
{
    Instr::Memory {
        op: OpM::Sw,
        rt,
        base,
        off: lower(off),
    }
}

/// The instructions of workload `n`: to its count, and then a round for each number.
pub fn program(n: u32) -> [Instr; LENGTH]
    requires { n ≤ WORKLOADS }
    ensures instructions { result ≡ program n }
    ensures proper { AreProper result }
{
    let rounds = LEAST_ROUNDS + ROUNDS_EACH * n;
    [
        lui(DEVICES, upper(DEVICE_ADDRESS)),
        lui(GLOBAL, upper(GLOBAL_ADDRESS)),
        lui(FACTOR, upper(MULTIPLIER)),
        ori(FACTOR, FACTOR, lower(MULTIPLIER)),
        lui(SUMMAND, upper(INCREMENT)),
        ori(SUMMAND, SUMMAND, lower(INCREMENT)),
        lui(NUMBER, upper(n)),
        ori(NUMBER, NUMBER, lower(n)),
        lui(COUNT, upper(rounds)),
        ori(COUNT, COUNT, lower(rounds)),
        // Each round begins here, with the next number.
        multu(NUMBER, FACTOR),
        mflo(NUMBER),
        addu(NUMBER, NUMBER, SUMMAND),
        sw(NUMBER, 0, GLOBAL),
        addiu(COUNT, COUNT, 0xFFFF),
        // Where the low byte of the count is 0, the top byte of the number is written.
        andi(LOW, COUNT, LOW_BYTE),
        bne(LOW, ZERO, 3),
        nop(),
        srl(TOP, NUMBER, 24),
        sw(TOP, CONOUT_OFFSET, DEVICES),
        // Eleven words back, to the next round, or on to the halt.
        bne(COUNT, ZERO, 0xFFF5),
        nop(),
        sw(NUMBER, HALT_OFFSET, DEVICES),
    ]
}
