//! The rows of three registers.

ghost use Rattle.std.specs.Prelude.{◌≡◌};
ghost use Rattle.s2_alu.specs.Arithmetic.{three_value};

use crate::shifts::shift;
use crate::sums::{add_signed, sub_signed};
use s2_decode::{Op3, OpS};

/// The value that a row of three registers gives, where `a` is the word in `rs` and `b` the word in
/// `rt`; `None` where ADD or SUB overflows, and only there.
///
/// Source: the MIPS R2000 instruction set.
pub fn three(op: Op3, a: u32, b: u32) -> Option<u32>
    ensures { result ≡ three_value op a b }
{
    match op {
        Op3::Add => add_signed(a, b),
        Op3::Addu => Some(a.wrapping_add(b)),
        Op3::Sub => sub_signed(a, b),
        Op3::Subu => Some(a.wrapping_sub(b)),
        Op3::And => Some(a & b),
        Op3::Or => Some(a | b),
        Op3::Xor => Some(a ^ b),
        Op3::Nor => Some(!(a | b)),
        Op3::Slt => Some(u32::from(a.cast_signed() < b.cast_signed())),
        Op3::Sltu => Some(u32::from(a < b)),
        Op3::Sllv => Some(shift(OpS::Sll, b, a % 32)),
        Op3::Srlv => Some(shift(OpS::Srl, b, a % 32)),
        Op3::Srav => Some(shift(OpS::Sra, b, a % 32)),
    }
}
