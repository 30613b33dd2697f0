//! Sums and differences of signed words.

ghost use Rattle.std.specs.Prelude.{◌≡◌, ◌+ℤ◌, ◌-ℤ◌, ◌↔◌, FitsSigned, IsSome};
ghost use Rattle.std.specs.Int.{w32};
ghost use Rattle.s2_alu.specs.Arithmetic.{signed_sum, signed_difference};
ghost use Rattle.s2_alu.specs.Signed.{signed};

/// The sum of two words as signed numbers, or `None` on signed overflow: ADD and ADDI.
///
/// Source: the MIPS R2000 instruction set.
pub fn add_signed(a: u32, b: u32) -> Option<u32>
    ensures value { result ≡ signed_sum a b }
    ensures fits { IsSome result ↔ FitsSigned w32 (signed a +ℤ signed b) }
{
    let sum = a.cast_signed().checked_add(b.cast_signed())?;
    Some(sum.cast_unsigned())
}

/// The difference of two words as signed numbers, or `None` on signed overflow: SUB.
///
/// Source: the MIPS R2000 instruction set.
pub fn sub_signed(a: u32, b: u32) -> Option<u32>
    ensures value { result ≡ signed_difference a b }
    ensures fits { IsSome result ↔ FitsSigned w32 (signed a -ℤ signed b) }
{
    let difference = a.cast_signed().checked_sub(b.cast_signed())?;
    Some(difference.cast_unsigned())
}
