//! Shifts of a word.

ghost use Rattle.std.specs.Prelude.{◌≡◌, ◌<◌};
ghost use Rattle.s2_alu.specs.Arithmetic.{shifted};

use s2_decode::OpS;

/// A word shifted by an amount below 32: SLL, SRL and SRA, and with the low five bits of a register
/// as the amount SLLV, SRLV and SRAV.
///
/// Source: the MIPS R2000 instruction set.
pub fn shift(op: OpS, v: u32, amount: u32) -> u32
    requires { amount < 32 }
    ensures { result ≡ shifted op v amount }
{
    match op {
        OpS::Sll => v << amount,
        OpS::Srl => v >> amount,
        OpS::Sra => shift_with_sign(v, amount),
    }
}

/// A word shifted right, copies of its sign coming in.
fn shift_with_sign(v: u32, amount: u32) -> u32
    requires { amount < 32 }
    ensures { result ≡ shifted OpS.Sra v amount }
{
    (v.cast_signed() >> amount).cast_unsigned()
}
