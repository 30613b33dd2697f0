//! The encoder: the codes of a row, its operands, and 0 in the other fields.

ghost use Rattle.std.specs.Prelude.{◌≡◌, ℕ, ◌<◌, ◌≤◌, ◌^◌};
ghost use Rattle.s2_decode.specs.Fields.{op_of, rs_of, rt_of, rd_of, sa_of, fn_of, imm_of, target_of};
ghost use Rattle.s2_decode.specs.Table.{decoded};
ghost use Rattle.s2_decode.specs.Properness.{IsProper, IsBranchRegister};
ghost use Rattle.s2_decode.specs.EncodedWords.{packed, packed_low, packed_target, three_code, shift_code, division_code, immediate_code, memory_code, encoded};

use crate::instr::{Instr, Op3, OpB, OpD, OpI, OpM, OpS};

/// A word of six fields.
fn with_fields(operation: u8, rs: u8, rt: u8, rd: u8, amount: u8, function: u8) -> u32
    requires operation_below { operation < 64 }
    requires rs_below { rs < 32 }
    requires rt_below { rt < 32 }
    requires rd_below { rd < 32 }
    requires amount_below { amount < 32 }
    requires function_below { function < 64 }
    ensures word { result ≡ packed operation rs rt rd amount function }
    ensures op { op_of result ≡ operation }
    ensures rs { rs_of result ≡ rs }
    ensures rt { rt_of result ≡ rt }
    ensures rd { rd_of result ≡ rd }
    ensures sa { sa_of result ≡ amount }
    ensures fn_code { fn_of result ≡ function }
{
    operation as u32 * 0x0400_0000
        + rs as u32 * 0x0020_0000
        + rt as u32 * 0x0001_0000
        + rd as u32 * 2048
        + amount as u32 * 64
        + function as u32
}

/// A word of an operation code, two registers and 16 bits.
fn with_low_half(operation: u8, rs: u8, rt: u8, low: u16) -> u32
    requires operation_below { operation < 64 }
    requires rs_below { rs < 32 }
    requires rt_below { rt < 32 }
    ensures word { result ≡ packed_low operation rs rt low }
    ensures op { op_of result ≡ operation }
    ensures rs { rs_of result ≡ rs }
    ensures rt { rt_of result ≡ rt }
    ensures imm { imm_of result ≡ low }
{
    operation as u32 * 0x0400_0000 + rs as u32 * 0x0020_0000 + rt as u32 * 0x0001_0000 + low as u32
}

/// A word of an operation code and a target.
fn with_target(operation: u8, target: u32) -> u32
    requires operation_below { operation < 64 }
    requires target_below { target < 2 ^ 26 }
    ensures word { result ≡ packed_target operation target }
    ensures op { op_of result ≡ operation }
    ensures target { target_of result ≡ target }
{
    operation as u32 * 0x0400_0000 + target
}

/// The function code of a row of three registers.
fn three_function(op: Op3) -> u8
    ensures code { result ≡ three_code op }
    ensures below { result < 64 }
    ensures row { (w : ℕ) → op_of w ≡ 0 → fn_of w ≡ result
        → decoded w ≡ Instr.Three op (rd_of w) (rs_of w) (rt_of w) }
{
    match op {
        Op3::Sllv => 4,
        Op3::Srlv => 6,
        Op3::Srav => 7,
        Op3::Add => 32,
        Op3::Addu => 33,
        Op3::Sub => 34,
        Op3::Subu => 35,
        Op3::And => 36,
        Op3::Or => 37,
        Op3::Xor => 38,
        Op3::Nor => 39,
        Op3::Slt => 42,
        Op3::Sltu => 43,
    }
}

/// The function code of a shift.
fn shift_function(op: OpS) -> u8
    ensures code { result ≡ shift_code op }
    ensures below { result < 64 }
    ensures row { (w : ℕ) → op_of w ≡ 0 → fn_of w ≡ result
        → decoded w ≡ Instr.Shift op (rd_of w) (rt_of w) (sa_of w) }
{
    match op {
        OpS::Sll => 0,
        OpS::Srl => 2,
        OpS::Sra => 3,
    }
}

/// The function code of a row that multiplies or divides.
fn division_function(op: OpD) -> u8
    ensures code { result ≡ division_code op }
    ensures below { result < 64 }
    ensures row { (w : ℕ) → op_of w ≡ 0 → fn_of w ≡ result
        → decoded w ≡ Instr.MulDiv op (rs_of w) (rt_of w) }
{
    match op {
        OpD::Mult => 24,
        OpD::Multu => 25,
        OpD::Div => 26,
        OpD::Divu => 27,
    }
}

/// The operation code of a row with an immediate.
fn immediate_operation(op: OpI) -> u8
    ensures code { result ≡ immediate_code op }
    ensures below { result < 64 }
    ensures row { (w : ℕ) → op_of w ≡ result
        → decoded w ≡ Instr.Imm op (rt_of w) (rs_of w) (imm_of w) }
{
    match op {
        OpI::Addi => 8,
        OpI::Addiu => 9,
        OpI::Slti => 10,
        OpI::Sltiu => 11,
        OpI::Andi => 12,
        OpI::Ori => 13,
        OpI::Xori => 14,
    }
}

/// The operation code of a load or store.
fn memory_operation(op: OpM) -> u8
    ensures code { result ≡ memory_code op }
    ensures below { result < 64 }
    ensures row { (w : ℕ) → op_of w ≡ result
        → decoded w ≡ Instr.Memory op (rt_of w) (rs_of w) (imm_of w) }
{
    match op {
        OpM::Lb => 32,
        OpM::Lh => 33,
        OpM::Lwl => 34,
        OpM::Lw => 35,
        OpM::Lbu => 36,
        OpM::Lhu => 37,
        OpM::Lwr => 38,
        OpM::Sb => 40,
        OpM::Sh => 41,
        OpM::Swl => 42,
        OpM::Sw => 43,
        OpM::Swr => 46,
    }
}

/// The word of a branch.
fn branch_word(op: OpB, rs: u8, rt: u8, off: u16) -> u32
    requires rs_below { rs < 32 }
    requires rt_fits { IsBranchRegister op rt }
    ensures word { result ≡ encoded (Instr.Branch op rs rt off) }
    ensures row { decoded result ≡ Instr.Branch op rs rt off }
{
    match op {
        OpB::Beq => with_low_half(4, rs, rt, off),
        OpB::Bne => with_low_half(5, rs, rt, off),
        OpB::Blez => with_low_half(6, rs, 0, off),
        OpB::Bgtz => with_low_half(7, rs, 0, off),
        OpB::Bltz => with_low_half(1, rs, 0, off),
        OpB::Bgez => with_low_half(1, rs, 1, off),
        OpB::Bltzal => with_low_half(1, rs, 16, off),
        OpB::Bgezal => with_low_half(1, rs, 17, off),
    }
}

/// The word of an instruction, by its group.
fn word_of(i: &Instr) -> u32
    requires { IsProper i.now }
    ensures word { result ≡ encoded i.now }
    ensures row { decoded result ≡ i.now }
{
    match *i {
        Instr::Three { op, rd, rs, rt } => with_fields(0, rs, rt, rd, 0, three_function(op)),
        Instr::Shift { op, rd, rt, sa } => with_fields(0, 0, rt, rd, sa, shift_function(op)),
        Instr::Imm { op, rt, rs, imm } => with_low_half(immediate_operation(op), rs, rt, imm),
        Instr::Lui { rt, imm } => with_low_half(15, 0, rt, imm),
        Instr::MulDiv { op, rs, rt } => with_fields(0, rs, rt, 0, 0, division_function(op)),
        Instr::MoveFrom { hi: true, rd } => with_fields(0, 0, 0, rd, 0, 16),
        Instr::MoveFrom { hi: false, rd } => with_fields(0, 0, 0, rd, 0, 18),
        Instr::MoveTo { hi: true, rs } => with_fields(0, rs, 0, 0, 0, 17),
        Instr::MoveTo { hi: false, rs } => with_fields(0, rs, 0, 0, 0, 19),
        Instr::Jump {
            link: false,
            target,
        } => with_target(2, target),
        Instr::Jump { link: true, target } => with_target(3, target),
        Instr::JumpReg { rs } => with_fields(0, rs, 0, 0, 0, 8),
        Instr::JumpLinkReg { rd, rs } => with_fields(0, rs, 0, rd, 0, 9),
        Instr::Branch { op, rs, rt, off } => branch_word(op, rs, rt, off),
        Instr::Memory { op, rt, base, off } => with_low_half(memory_operation(op), base, rt, off),
        Instr::Syscall => with_fields(0, 0, 0, 0, 0, 12),
        Instr::Break => with_fields(0, 0, 0, 0, 0, 13),
        Instr::Mfc0 { rt, rd } => with_fields(16, 0, rt, rd, 0, 0),
        Instr::Mtc0 { rt, rd } => with_fields(16, 4, rt, rd, 0, 0),
        Instr::Tlbr => with_fields(16, 16, 0, 0, 0, 1),
        Instr::Tlbwi => with_fields(16, 16, 0, 0, 0, 2),
        Instr::Tlbwr => with_fields(16, 16, 0, 0, 0, 6),
        Instr::Tlbp => with_fields(16, 16, 0, 0, 0, 8),
        Instr::Rfe => with_fields(16, 16, 0, 0, 0, 16),
        Instr::Foreign { word, .. } | Instr::Reserved(word) => word,
    }
}

/// The least word of an instruction: each field that its row does not use is 0.
///
/// Source: the opcode bit encoding of the MIPS R2000 instruction set.
pub fn encode(i: &Instr) -> u32
    requires { IsProper i.now }
    ensures round_trip { decoded result ≡ i.now }
    ensures least { (w : ℕ) → decoded w ≡ i.now → result ≤ w }
{
    word_of(i)
}
