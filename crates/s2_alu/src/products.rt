//! Products and quotients, into HI and LO.

ghost use Rattle.std.specs.Prelude.{◌≡◌};
ghost use Rattle.s2_alu.specs.Arithmetic.{product_or_quotient, halves};

use s2_decode::OpD;

/// HI and LO after a multiplication or a division of the words `a` and `b`.
///
/// A product of 64 bits has its upper half in HI. A quotient is in LO and its remainder in HI; the
/// signed quotient is rounded toward zero, and its remainder has the sign of `a`. Source: the MIPS
/// R2000 instruction set. Two cases are this project's own: a division by zero gives all ones in LO
/// and `a` in HI, and -2^31 by -1 gives -2^31 in LO and 0 in HI.
pub fn mul_div(op: OpD, a: u32, b: u32) -> (u32, u32)
    ensures { result ≡ product_or_quotient op a b }
{
    match op {
        OpD::Mult => multiply_signed(a, b),
        OpD::Multu => multiply(a, b),
        OpD::Div => divide_signed(a, b),
        OpD::Divu => divide(a, b),
    }
}

/// The signed product.
fn multiply_signed(a: u32, b: u32) -> (u32, u32)
    ensures { result ≡ product_or_quotient OpD.Mult a b }
{
    let product = i64::from(a.cast_signed()) * i64::from(b.cast_signed());
    split(product.cast_unsigned())
}

/// The unsigned product.
fn multiply(a: u32, b: u32) -> (u32, u32)
    ensures { result ≡ product_or_quotient OpD.Multu a b }
{
    split(u64::from(a) * u64::from(b))
}

/// The signed remainder and quotient.
fn divide_signed(a: u32, b: u32) -> (u32, u32)
    ensures { result ≡ product_or_quotient OpD.Div a b }
{
    if b == 0 {
        return (a, u32::MAX);
    }
    let dividend = a.cast_signed();
    let divisor = b.cast_signed();
    let remainder = dividend.wrapping_rem(divisor).cast_unsigned();
    let quotient = dividend.wrapping_div(divisor).cast_unsigned();
    (remainder, quotient)
}

/// The unsigned remainder and quotient.
fn divide(a: u32, b: u32) -> (u32, u32)
    ensures { result ≡ product_or_quotient OpD.Divu a b }
{
    if b == 0 {
        (a, u32::MAX)
    } else {
        (a % b, a / b)
    }
}

/// The upper and the lower half of a product.
fn split(product: u64) -> (u32, u32)
    ensures { result ≡ halves product }
{
    let upper = (product >> 32) as u32;
    let lower = (product & 0xFFFF_FFFF) as u32;
    (upper, lower)
}
