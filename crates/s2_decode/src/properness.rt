//! Which instructions are one of the table's.

ghost use Rattle.std.specs.Prelude.{◌≡◌, ◌↔◌, IsTrue};
ghost use Rattle.s2_decode.specs.Table.{decoded};
ghost use Rattle.s2_decode.specs.Properness.{IsProper, IsBranchRegister};

use crate::decoding::decode;
use crate::instr::{Instr, OpB};

/// Whether a branch may have this second register: only BEQ and BNE have one, below 32.
fn is_branch_register(op: OpB, rt: u8) -> bool
    ensures { IsTrue result ↔ IsBranchRegister op rt }
{
    match op {
        OpB::Beq | OpB::Bne => rt < 32,
        OpB::Blez | OpB::Bgtz | OpB::Bltz | OpB::Bgez | OpB::Bltzal | OpB::Bgezal => rt == 0,
    }
}

/// Whether a word decodes to a foreign instruction of this coprocessor.
fn is_foreign(unit: u8, word: u32) -> bool
    ensures { IsTrue result ↔ (decoded word ≡ Instr.Foreign unit word) }
{
    match decode(word) {
        Instr::Foreign { unit: number, .. } => number == unit,
        _ => false,
    }
}

/// Whether a word is in no row of the table.
fn is_reserved(word: u32) -> bool
    ensures { IsTrue result ↔ (decoded word ≡ Instr.Reserved word) }
{
    match decode(word) {
        Instr::Reserved(_) => true,
        _ => false,
    }
}

/// Whether an instruction is one of the table's: its operands fit the fields of its word.
///
/// Registers and shift amounts are below 32, a target below 2^26, `rt` is 0 in a branch on one
/// register, and a word that is kept whole is one that decodes to just this instruction. Source: the
/// instruction formats of the MIPS R2000.
pub fn proper(i: &Instr) -> bool
    ensures { IsTrue result ↔ IsProper i.now }
{
    match *i {
        Instr::Three { rd, rs, rt, .. } => rd < 32 && rs < 32 && rt < 32,
        Instr::Shift { rd, rt, sa, .. } => rd < 32 && rt < 32 && sa < 32,
        Instr::Imm { rt, rs, .. } => rt < 32 && rs < 32,
        Instr::Lui { rt, .. } => rt < 32,
        Instr::MulDiv { rs, rt, .. } => rs < 32 && rt < 32,
        Instr::MoveFrom { rd, .. } => rd < 32,
        Instr::MoveTo { rs, .. } | Instr::JumpReg { rs } => rs < 32,
        Instr::Jump { target, .. } => target < 0x0400_0000,
        Instr::JumpLinkReg { rd, rs } => rd < 32 && rs < 32,
        Instr::Branch { op, rs, rt, .. } => rs < 32 && is_branch_register(op, rt),
        Instr::Memory { rt, base, .. } => rt < 32 && base < 32,
        Instr::Mfc0 { rt, rd } | Instr::Mtc0 { rt, rd } => rt < 32 && rd < 32,
        Instr::Syscall | Instr::Break => true,
        Instr::Tlbr | Instr::Tlbwi | Instr::Tlbwr | Instr::Tlbp | Instr::Rfe => true,
        Instr::Foreign { unit, word } => is_foreign(unit, word),
        Instr::Reserved(word) => is_reserved(word),
    }
}
