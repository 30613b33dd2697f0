//! The decoder, by the groups of the instruction table: a row is a line.

ghost use Rattle.std.specs.Prelude.{◌≡◌, ◌≤◌, nat_le, if◌then◌else◌};
ghost use Rattle.s2_decode.specs.Fields.{op_of, rs_of, rt_of, rd_of, sa_of, fn_of, imm_of, target_of};
ghost use Rattle.s2_decode.specs.Table.{special_high, special, regimm, privileged, coprocessor, plain, access, decoded};
ghost use Rattle.s2_decode.specs.Properness.{IsProper};
ghost use Rattle.s2_decode.specs.declared.decoding.TheConstants.{SPECIAL_END};

use crate::fields::{amount, function, immediate, operation, rd, rs, rt, target};
use crate::instr::{Instr, Op3, OpB, OpD, OpI, OpM, OpS};

/// Where the words of operation code 0 end.
const SPECIAL_END: u32 = 0x0400_0000;

/// A row of three registers.
#[inline(always)]
fn three(op: Op3, word: u32) -> Instr
    ensures { result ≡ Instr.Three op (rd_of word) (rs_of word) (rt_of word) }
{
    Instr::Three {
        op,
        rd: rd(word),
        rs: rs(word),
        rt: rt(word),
    }
}

/// A row that shifts by the amount in the word.
#[inline(always)]
fn shift(op: OpS, word: u32) -> Instr
    ensures { result ≡ Instr.Shift op (rd_of word) (rt_of word) (sa_of word) }
{
    Instr::Shift {
        op,
        rd: rd(word),
        rt: rt(word),
        sa: amount(word),
    }
}

/// A row that multiplies or divides.
#[inline(always)]
fn mul_div(op: OpD, word: u32) -> Instr
    ensures { result ≡ Instr.MulDiv op (rs_of word) (rt_of word) }
{
    Instr::MulDiv {
        op,
        rs: rs(word),
        rt: rt(word),
    }
}

/// A branch on two registers.
#[inline(always)]
fn branch(op: OpB, word: u32) -> Instr
    ensures { result ≡ Instr.Branch op (rs_of word) (rt_of word) (imm_of word) }
{
    Instr::Branch {
        op,
        rs: rs(word),
        rt: rt(word),
        off: immediate(word),
    }
}

/// A branch on one register.
#[inline(always)]
fn branch_on_one(op: OpB, word: u32) -> Instr
    ensures { result ≡ Instr.Branch op (rs_of word) 0 (imm_of word) }
{
    Instr::Branch {
        op,
        rs: rs(word),
        rt: 0,
        off: immediate(word),
    }
}

/// A row with an immediate.
#[inline(always)]
fn with_immediate(op: OpI, word: u32) -> Instr
    ensures { result ≡ Instr.Imm op (rt_of word) (rs_of word) (imm_of word) }
{
    Instr::Imm {
        op,
        rt: rt(word),
        rs: rs(word),
        imm: immediate(word),
    }
}

/// A load or store.
#[inline(always)]
fn memory(op: OpM, word: u32) -> Instr
    ensures { result ≡ Instr.Memory op (rt_of word) (rs_of word) (imm_of word) }
{
    Instr::Memory {
        op,
        rt: rt(word),
        base: rs(word),
        off: immediate(word),
    }
}

/// A jump to the address in a register.
#[inline(always)]
fn jump_reg(word: u32) -> Instr
    ensures { result ≡ Instr.JumpReg (rs_of word) }
{
    Instr::JumpReg { rs: rs(word) }
}

/// The same, with a link.
#[inline(always)]
fn jump_link_reg(word: u32) -> Instr
    ensures { result ≡ Instr.JumpLinkReg (rd_of word) (rs_of word) }
{
    Instr::JumpLinkReg {
        rd: rd(word),
        rs: rs(word),
    }
}

/// A move from HI, or from LO.
#[inline(always)]
fn move_from(hi: bool, word: u32) -> Instr
    ensures { result ≡ Instr.MoveFrom hi (rd_of word) }
{
    Instr::MoveFrom { hi, rd: rd(word) }
}

/// A move to HI, or to LO.
#[inline(always)]
fn move_to(hi: bool, word: u32) -> Instr
    ensures { result ≡ Instr.MoveTo hi (rs_of word) }
{
    Instr::MoveTo { hi, rs: rs(word) }
}

/// A jump, with or without a link.
#[inline(always)]
fn jump(link: bool, word: u32) -> Instr
    ensures { result ≡ Instr.Jump link (target_of word) }
{
    Instr::Jump {
        link,
        target: target(word),
    }
}

/// A load of the upper half of a register.
#[inline(always)]
fn load_upper(word: u32) -> Instr
    ensures { result ≡ Instr.Lui (rt_of word) (imm_of word) }
{
    Instr::Lui {
        rt: rt(word),
        imm: immediate(word),
    }
}

/// A move from a register of coprocessor 0.
#[inline(always)]
fn move_from_control(word: u32) -> Instr
    ensures { result ≡ Instr.Mfc0 (rt_of word) (rd_of word) }
{
    Instr::Mfc0 {
        rt: rt(word),
        rd: rd(word),
    }
}

/// A move to a register of coprocessor 0.
#[inline(always)]
fn move_to_control(word: u32) -> Instr
    ensures { result ≡ Instr.Mtc0 (rt_of word) (rd_of word) }
{
    Instr::Mtc0 {
        rt: rt(word),
        rd: rd(word),
    }
}

/// Operation code 0, function codes from 32 on.
#[inline(always)]
fn special_high_row(word: u32) -> Instr
    ensures { result ≡ special_high word }
{
    match function(word) {
        32 => three(Op3::Add, word),
        33 => three(Op3::Addu, word),
        34 => three(Op3::Sub, word),
        35 => three(Op3::Subu, word),
        36 => three(Op3::And, word),
        37 => three(Op3::Or, word),
        38 => three(Op3::Xor, word),
        39 => three(Op3::Nor, word),
        40 => Instr::Reserved(word),
        41 => Instr::Reserved(word),
        42 => three(Op3::Slt, word),
        43 => three(Op3::Sltu, word),
        44 => Instr::Reserved(word),
        45 => Instr::Reserved(word),
        46 => Instr::Reserved(word),
        47 => Instr::Reserved(word),
        48 => Instr::Reserved(word),
        49 => Instr::Reserved(word),
        50 => Instr::Reserved(word),
        51 => Instr::Reserved(word),
        52 => Instr::Reserved(word),
        53 => Instr::Reserved(word),
        54 => Instr::Reserved(word),
        55 => Instr::Reserved(word),
        56 => Instr::Reserved(word),
        57 => Instr::Reserved(word),
        58 => Instr::Reserved(word),
        59 => Instr::Reserved(word),
        60 => Instr::Reserved(word),
        61 => Instr::Reserved(word),
        62 => Instr::Reserved(word),
        63 => Instr::Reserved(word),
        _ => Instr::Reserved(word),
    }
}

/// Operation code 0, by the function code.
#[inline(always)]
fn special_row(word: u32) -> Instr
    ensures { result ≡ special word }
{
    match function(word) {
        0 => shift(OpS::Sll, word),
        1 => Instr::Reserved(word),
        2 => shift(OpS::Srl, word),
        3 => shift(OpS::Sra, word),
        4 => three(Op3::Sllv, word),
        5 => Instr::Reserved(word),
        6 => three(Op3::Srlv, word),
        7 => three(Op3::Srav, word),
        8 => jump_reg(word),
        9 => jump_link_reg(word),
        10 => Instr::Reserved(word),
        11 => Instr::Reserved(word),
        12 => Instr::Syscall,
        13 => Instr::Break,
        14 => Instr::Reserved(word),
        15 => Instr::Reserved(word),
        16 => move_from(true, word),
        17 => move_to(true, word),
        18 => move_from(false, word),
        19 => move_to(false, word),
        20 => Instr::Reserved(word),
        21 => Instr::Reserved(word),
        22 => Instr::Reserved(word),
        23 => Instr::Reserved(word),
        24 => mul_div(OpD::Mult, word),
        25 => mul_div(OpD::Multu, word),
        26 => mul_div(OpD::Div, word),
        27 => mul_div(OpD::Divu, word),
        28 => Instr::Reserved(word),
        29 => Instr::Reserved(word),
        30 => Instr::Reserved(word),
        31 => Instr::Reserved(word),
        _ => special_high_row(word),
    }
}

/// Operation code 1, by the rt field.
#[inline(always)]
fn regimm_row(word: u32) -> Instr
    ensures { result ≡ regimm word }
{
    match rt(word) {
        0 => branch_on_one(OpB::Bltz, word),
        1 => branch_on_one(OpB::Bgez, word),
        16 => branch_on_one(OpB::Bltzal, word),
        17 => branch_on_one(OpB::Bgezal, word),
        _ => Instr::Reserved(word),
    }
}

/// Operation code 16 with an rs field from 16 on, by the function code.
fn privileged_row(word: u32) -> Instr
    ensures { result ≡ privileged word }
{
    match function(word) {
        1 => Instr::Tlbr,
        2 => Instr::Tlbwi,
        6 => Instr::Tlbwr,
        8 => Instr::Tlbp,
        16 => Instr::Rfe,
        _ => Instr::Reserved(word),
    }
}

/// Operation code 16, by the rs field.
fn coprocessor_row(word: u32) -> Instr
    ensures { result ≡ coprocessor word }
{
    match rs(word) {
        0 => move_from_control(word),
        4 => move_to_control(word),
        16..=31 => privileged_row(word),
        _ => Instr::Reserved(word),
    }
}

/// Operation codes from 32 on: loads and stores, those of coprocessors too.
#[inline(always)]
fn access_row(word: u32) -> Instr
    ensures { result ≡ access word }
{
    match operation(word) {
        32 => memory(OpM::Lb, word),
        33 => memory(OpM::Lh, word),
        34 => memory(OpM::Lwl, word),
        35 => memory(OpM::Lw, word),
        36 => memory(OpM::Lbu, word),
        37 => memory(OpM::Lhu, word),
        38 => memory(OpM::Lwr, word),
        39 => Instr::Reserved(word),
        40 => memory(OpM::Sb, word),
        41 => memory(OpM::Sh, word),
        42 => memory(OpM::Swl, word),
        43 => memory(OpM::Sw, word),
        44 => Instr::Reserved(word),
        45 => Instr::Reserved(word),
        46 => memory(OpM::Swr, word),
        47 => Instr::Reserved(word),
        48 => Instr::Reserved(word),
        49 => Instr::Foreign { unit: 1, word },
        50 => Instr::Foreign { unit: 2, word },
        51 => Instr::Foreign { unit: 3, word },
        52 => Instr::Reserved(word),
        53 => Instr::Reserved(word),
        54 => Instr::Reserved(word),
        55 => Instr::Reserved(word),
        56 => Instr::Reserved(word),
        57 => Instr::Foreign { unit: 1, word },
        58 => Instr::Foreign { unit: 2, word },
        59 => Instr::Foreign { unit: 3, word },
        60 => Instr::Reserved(word),
        61 => Instr::Reserved(word),
        62 => Instr::Reserved(word),
        63 => Instr::Reserved(word),
        _ => Instr::Reserved(word),
    }
}

/// Operation codes that stand for one row.
#[inline(always)]
fn plain_row(word: u32) -> Instr
    ensures { result ≡ (if nat_le 32 (op_of word) then access word else plain word) }
{
    match operation(word) {
        2 => jump(false, word),
        3 => jump(true, word),
        4 => branch(OpB::Beq, word),
        5 => branch(OpB::Bne, word),
        6 => branch_on_one(OpB::Blez, word),
        7 => branch_on_one(OpB::Bgtz, word),
        8 => with_immediate(OpI::Addi, word),
        9 => with_immediate(OpI::Addiu, word),
        10 => with_immediate(OpI::Slti, word),
        11 => with_immediate(OpI::Sltiu, word),
        12 => with_immediate(OpI::Andi, word),
        13 => with_immediate(OpI::Ori, word),
        14 => with_immediate(OpI::Xori, word),
        15 => load_upper(word),
        17 => Instr::Foreign { unit: 1, word },
        18 => Instr::Foreign { unit: 2, word },
        19 => Instr::Foreign { unit: 3, word },
        20 => Instr::Reserved(word),
        21 => Instr::Reserved(word),
        22 => Instr::Reserved(word),
        23 => Instr::Reserved(word),
        24 => Instr::Reserved(word),
        25 => Instr::Reserved(word),
        26 => Instr::Reserved(word),
        27 => Instr::Reserved(word),
        28 => Instr::Reserved(word),
        29 => Instr::Reserved(word),
        30 => Instr::Reserved(word),
        31 => Instr::Reserved(word),
        _ => access_row(word),
    }
}

/// Operation codes from 1 on.
#[inline(always)]
fn coded_row(word: u32) -> Instr
    requires { SPECIAL_END ≤ word }
    ensures { result ≡ decoded word }
{
    match operation(word) {
        1 => regimm_row(word),
        16 => coprocessor_row(word),
        _ => plain_row(word),
    }
}

/// The instruction of a word: each word has one.
///
/// Fields that a row does not name are ignored. Source: the opcode bit encoding of the MIPS R2000
/// instruction set.
#[inline(always)]
pub fn decode(word: u32) -> Instr
    ensures row { result ≡ decoded word }
    ensures proper { IsProper result }
{
    if word < SPECIAL_END {
        special_row(word)
    } else {
        coded_row(word)
    }
}
