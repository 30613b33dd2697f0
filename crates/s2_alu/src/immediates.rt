//! The rows with an immediate.

ghost use Rattle.std.specs.Prelude.{◌≡◌};
ghost use Rattle.s2_alu.specs.Arithmetic.{immediate_value};

use crate::sums::add_signed;
use s2_base::sext16;
use s2_decode::OpI;

/// The value that a row with an immediate gives, where `a` is the word in `rs`; `None` where ADDI
/// overflows, and only there.
///
/// Source: the MIPS R2000 instruction set.
pub fn immediate(op: OpI, a: u32, imm: u16) -> Option<u32>
    ensures { result ≡ immediate_value op a imm }
{
    let signed = sext16(imm as u32);
    match op {
        OpI::Addi => add_signed(a, signed),
        OpI::Addiu => Some(a.wrapping_add(signed)),
        OpI::Slti => Some(u32::from(a.cast_signed() < signed.cast_signed())),
        OpI::Sltiu => Some(u32::from(a < signed)),
        OpI::Andi => Some(a & imm as u32),
        OpI::Ori => Some(a | imm as u32),
        OpI::Xori => Some(a ^ imm as u32),
    }
}
