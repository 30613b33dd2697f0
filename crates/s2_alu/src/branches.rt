//! Conditions of the branches.

ghost use Rattle.std.specs.Prelude.{◌≡◌};
ghost use Rattle.s2_alu.specs.Arithmetic.{is_taken};

use s2_decode::OpB;

/// Whether a branch is taken, where `a` is the word in `rs` and `b` the word in `rt`.
///
/// Only BEQ and BNE read `b`. Source: the MIPS R2000 instruction set.
pub fn taken(op: OpB, a: u32, b: u32) -> bool
    ensures { result ≡ is_taken op a b }
{
    let number = a.cast_signed();
    match op {
        OpB::Beq => a == b,
        OpB::Bne => a != b,
        OpB::Blez => number <= 0,
        OpB::Bgtz => number > 0,
        OpB::Bltz | OpB::Bltzal => number < 0,
        OpB::Bgez | OpB::Bgezal => number >= 0,
    }
}
