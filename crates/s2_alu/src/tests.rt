//! Values at the corners: 0, 1, -1, the least and the greatest number, and 7 and -7 by 2 and -2.
//!
//! The expected values come from integer arithmetic in Python, with quotients toward zero by absolute
//! values and signs.

use crate::{add_signed, mul_div, shift, sub_signed, taken, three};
use s2_decode::{Op3, OpB, OpD, OpS};

/// Two words, and HI and LO of their signed and of their unsigned product.
#[rattlefmt::skip]
static PRODUCTS: [(u32, u32, (u32, u32), (u32, u32)); 20] = [
    (0, 0, (0, 0), (0, 0)),
    (1, 0xFFFF_FFFF, (0xFFFF_FFFF, 0xFFFF_FFFF), (0, 0xFFFF_FFFF)),
    (0xFFFF_FFFF, 1, (0xFFFF_FFFF, 0xFFFF_FFFF), (0, 0xFFFF_FFFF)),
    (0xFFFF_FFFF, 0xFFFF_FFFF, (0, 1), (0xFFFF_FFFE, 1)),
    (0, 0x8000_0000, (0, 0), (0, 0)),
    (1, 0x8000_0000, (0xFFFF_FFFF, 0x8000_0000), (0, 0x8000_0000)),
    (0x8000_0000, 1, (0xFFFF_FFFF, 0x8000_0000), (0, 0x8000_0000)),
    (0x8000_0000, 0xFFFF_FFFF, (0, 0x8000_0000), (0x7FFF_FFFF, 0x8000_0000)),
    (0x8000_0000, 0x8000_0000, (0x4000_0000, 0), (0x4000_0000, 0)),
    (0x8000_0000, 0x7FFF_FFFF, (0xC000_0000, 0x8000_0000), (0x3FFF_FFFF, 0x8000_0000)),
    (0x7FFF_FFFF, 0x8000_0000, (0xC000_0000, 0x8000_0000), (0x3FFF_FFFF, 0x8000_0000)),
    (0x7FFF_FFFF, 0x7FFF_FFFF, (0x3FFF_FFFF, 1), (0x3FFF_FFFF, 1)),
    (0x7FFF_FFFF, 0xFFFF_FFFF, (0xFFFF_FFFF, 0x8000_0001), (0x7FFF_FFFE, 0x8000_0001)),
    (0xFFFF_FFFF, 0x7FFF_FFFF, (0xFFFF_FFFF, 0x8000_0001), (0x7FFF_FFFE, 0x8000_0001)),
    (0x8000_0000, 0, (0, 0), (0, 0)),
    (7, 0, (0, 0), (0, 0)),
    (7, 2, (0, 0x0000_000E), (0, 0x0000_000E)),
    (0xFFFF_FFF9, 2, (0xFFFF_FFFF, 0xFFFF_FFF2), (1, 0xFFFF_FFF2)),
    (7, 0xFFFF_FFFE, (0xFFFF_FFFF, 0xFFFF_FFF2), (6, 0xFFFF_FFF2)),
    (0xFFFF_FFF9, 0xFFFF_FFFE, (0, 0x0000_000E), (0xFFFF_FFF7, 0x0000_000E)),
];

/// Two words, and HI and LO of their signed and of their unsigned quotient.
#[rattlefmt::skip]
static QUOTIENTS: [(u32, u32, (u32, u32), (u32, u32)); 20] = [
    (0, 0, (0, 0xFFFF_FFFF), (0, 0xFFFF_FFFF)),
    (1, 0xFFFF_FFFF, (0, 0xFFFF_FFFF), (1, 0)),
    (0xFFFF_FFFF, 1, (0, 0xFFFF_FFFF), (0, 0xFFFF_FFFF)),
    (0xFFFF_FFFF, 0xFFFF_FFFF, (0, 1), (0, 1)),
    (0, 0x8000_0000, (0, 0), (0, 0)),
    (1, 0x8000_0000, (1, 0), (1, 0)),
    (0x8000_0000, 1, (0, 0x8000_0000), (0, 0x8000_0000)),
    (0x8000_0000, 0xFFFF_FFFF, (0, 0x8000_0000), (0x8000_0000, 0)),
    (0x8000_0000, 0x8000_0000, (0, 1), (0, 1)),
    (0x8000_0000, 0x7FFF_FFFF, (0xFFFF_FFFF, 0xFFFF_FFFF), (1, 1)),
    (0x7FFF_FFFF, 0x8000_0000, (0x7FFF_FFFF, 0), (0x7FFF_FFFF, 0)),
    (0x7FFF_FFFF, 0x7FFF_FFFF, (0, 1), (0, 1)),
    (0x7FFF_FFFF, 0xFFFF_FFFF, (0, 0x8000_0001), (0x7FFF_FFFF, 0)),
    (0xFFFF_FFFF, 0x7FFF_FFFF, (0xFFFF_FFFF, 0), (1, 2)),
    (0x8000_0000, 0, (0x8000_0000, 0xFFFF_FFFF), (0x8000_0000, 0xFFFF_FFFF)),
    (7, 0, (7, 0xFFFF_FFFF), (7, 0xFFFF_FFFF)),
    (7, 2, (1, 3), (1, 3)),
    (0xFFFF_FFF9, 2, (0xFFFF_FFFF, 0xFFFF_FFFD), (1, 0x7FFF_FFFC)),
    (7, 0xFFFF_FFFE, (1, 0xFFFF_FFFD), (7, 0)),
    (0xFFFF_FFF9, 0xFFFF_FFFE, (0xFFFF_FFFF, 3), (0xFFFF_FFF9, 0)),
];

/// Two words, their sum and difference as signed numbers, and modulo 2^32.
#[rattlefmt::skip]
static SUMS: [(u32, u32, Option<u32>, Option<u32>, u32, u32); 20] = [
    (0, 0, Some(0), Some(0), 0, 0),
    (1, 0xFFFF_FFFF, Some(0), Some(2), 0, 2),
    (0xFFFF_FFFF, 1, Some(0), Some(0xFFFF_FFFE), 0, 0xFFFF_FFFE),
    (0xFFFF_FFFF, 0xFFFF_FFFF, Some(0xFFFF_FFFE), Some(0), 0xFFFF_FFFE, 0),
    (0, 0x8000_0000, Some(0x8000_0000), None, 0x8000_0000, 0x8000_0000),
    (1, 0x8000_0000, Some(0x8000_0001), None, 0x8000_0001, 0x8000_0001),
    (0x8000_0000, 1, Some(0x8000_0001), None, 0x8000_0001, 0x7FFF_FFFF),
    (0x8000_0000, 0xFFFF_FFFF, None, Some(0x8000_0001), 0x7FFF_FFFF, 0x8000_0001),
    (0x8000_0000, 0x8000_0000, None, Some(0), 0, 0),
    (0x8000_0000, 0x7FFF_FFFF, Some(0xFFFF_FFFF), None, 0xFFFF_FFFF, 1),
    (0x7FFF_FFFF, 0x8000_0000, Some(0xFFFF_FFFF), None, 0xFFFF_FFFF, 0xFFFF_FFFF),
    (0x7FFF_FFFF, 0x7FFF_FFFF, None, Some(0), 0xFFFF_FFFE, 0),
    (0x7FFF_FFFF, 0xFFFF_FFFF, Some(0x7FFF_FFFE), None, 0x7FFF_FFFE, 0x8000_0000),
    (0xFFFF_FFFF, 0x7FFF_FFFF, Some(0x7FFF_FFFE), Some(0x8000_0000), 0x7FFF_FFFE, 0x8000_0000),
    (0x8000_0000, 0, Some(0x8000_0000), Some(0x8000_0000), 0x8000_0000, 0x8000_0000),
    (7, 0, Some(7), Some(7), 7, 7),
    (7, 2, Some(9), Some(5), 9, 5),
    (0xFFFF_FFF9, 2, Some(0xFFFF_FFFB), Some(0xFFFF_FFF7), 0xFFFF_FFFB, 0xFFFF_FFF7),
    (7, 0xFFFF_FFFE, Some(5), Some(9), 5, 9),
    (0xFFFF_FFF9, 0xFFFF_FFFE, Some(0xFFFF_FFF7), Some(0xFFFF_FFFB), 0xFFFF_FFF7, 0xFFFF_FFFB),
];

/// Two words, and 1 where the first is below the second as signed and as unsigned numbers.
#[rattlefmt::skip]
static ORDER: [(u32, u32, u32, u32); 20] = [
    (0, 0, 0, 0),
    (1, 0xFFFF_FFFF, 0, 1),
    (0xFFFF_FFFF, 1, 1, 0),
    (0xFFFF_FFFF, 0xFFFF_FFFF, 0, 0),
    (0, 0x8000_0000, 0, 1),
    (1, 0x8000_0000, 0, 1),
    (0x8000_0000, 1, 1, 0),
    (0x8000_0000, 0xFFFF_FFFF, 1, 1),
    (0x8000_0000, 0x8000_0000, 0, 0),
    (0x8000_0000, 0x7FFF_FFFF, 1, 0),
    (0x7FFF_FFFF, 0x8000_0000, 0, 1),
    (0x7FFF_FFFF, 0x7FFF_FFFF, 0, 0),
    (0x7FFF_FFFF, 0xFFFF_FFFF, 0, 1),
    (0xFFFF_FFFF, 0x7FFF_FFFF, 1, 0),
    (0x8000_0000, 0, 1, 0),
    (7, 0, 0, 0),
    (7, 2, 0, 0),
    (0xFFFF_FFF9, 2, 1, 0),
    (7, 0xFFFF_FFFE, 0, 1),
    (0xFFFF_FFF9, 0xFFFF_FFFE, 1, 1),
];

/// A word, and the word shifted by 31: left, right, and right with its sign.
#[rattlefmt::skip]
static SHIFTS: [(u32, u32, u32, u32); 7] = [
    (0, 0, 0, 0),
    (1, 0x8000_0000, 0, 0),
    (0xFFFF_FFFF, 0x8000_0000, 1, 0xFFFF_FFFF),
    (0x8000_0000, 0, 1, 0xFFFF_FFFF),
    (0x7FFF_FFFF, 0x8000_0000, 0, 0),
    (7, 0x8000_0000, 0, 0),
    (0xFFFF_FFF9, 0x8000_0000, 1, 0xFFFF_FFFF),
];

/// A word, and whether as a signed number it is at most 0, above 0, below 0 and at least 0.
#[rattlefmt::skip]
static SIGNS: [(u32, bool, bool, bool, bool); 7] = [
    (0, true, false, false, true),
    (1, false, true, false, true),
    (0xFFFF_FFFF, true, false, true, false),
    (0x8000_0000, true, false, true, false),
    (0x7FFF_FFFF, false, true, false, true),
    (7, false, true, false, true),
    (0xFFFF_FFF9, true, false, true, false),
];

/// Two words, and their and, or, exclusive or and nor.
#[rattlefmt::skip]
static BITS: [(u32, u32, u32, u32, u32, u32); 2] = [
    (0xFFFF_0000, 0xFF00_FF00, 0xFF00_0000, 0xFFFF_FF00, 0x00FF_FF00, 0x0000_00FF),
    (0x8000_0000, 0x7FFF_FFFF, 0, 0xFFFF_FFFF, 0xFFFF_FFFF, 0),
];

#[test]
fn products_and_quotients_are_those_of_integers(rt: HostRuntime) {
    for row in &PRODUCTS {
        let (a, b, signed, unsigned) = *row;
        assert_eq!(rt; mul_div(OpD::Mult, a, b), signed, "{a} by {b}");
        assert_eq!(rt; mul_div(OpD::Multu, a, b), unsigned, "{a} by {b}");
    }
    for row in &QUOTIENTS {
        let (a, b, signed, unsigned) = *row;
        assert_eq!(rt; mul_div(OpD::Div, a, b), signed, "{a} by {b}");
        assert_eq!(rt; mul_div(OpD::Divu, a, b), unsigned, "{a} by {b}");
    }
}

#[test]
fn sums_overflow_and_numbers_compare_as_integers_do(rt: HostRuntime) {
    for row in &SUMS {
        let (a, b, sum, difference, word_sum, word_difference) = *row;
        assert_eq!(rt; add_signed(a, b), sum, "{a} and {b}");
        assert_eq!(rt; sub_signed(a, b), difference, "{a} and {b}");
        assert_eq!(rt; three(Op3::Addu, a, b), Some(word_sum), "{a} and {b}");
        assert_eq!(rt;
            three(Op3::Subu, a, b),
            Some(word_difference),
            "{a} and {b}"
        );
    }
    for row in &ORDER {
        let (a, b, signed, unsigned) = *row;
        assert_eq!(rt; three(Op3::Slt, a, b), Some(signed), "{a} and {b}");
        assert_eq!(rt; three(Op3::Sltu, a, b), Some(unsigned), "{a} and {b}");
        assert_eq!(rt; taken(OpB::Beq, a, b), a == b, "{a} and {b}");
        assert_eq!(rt; taken(OpB::Bne, a, b), a != b, "{a} and {b}");
    }
}

#[test]
fn words_are_shifted_and_joined_bit_by_bit(rt: HostRuntime) {
    for row in &SHIFTS {
        let (v, left, right, with_sign) = *row;
        assert_eq!(rt; shift(OpS::Sll, v, 31), left, "{v}");
        assert_eq!(rt; shift(OpS::Srl, v, 31), right, "{v}");
        assert_eq!(rt; shift(OpS::Sra, v, 31), with_sign, "{v}");
        assert_eq!(rt; three(Op3::Sllv, 63, v), Some(left), "{v}");
        assert_eq!(rt; three(Op3::Srlv, 63, v), Some(right), "{v}");
        assert_eq!(rt; three(Op3::Srav, 63, v), Some(with_sign), "{v}");
        assert_eq!(rt; shift(OpS::Sll, v, 0), v, "{v}");
        assert_eq!(rt; shift(OpS::Srl, v, 0), v, "{v}");
        assert_eq!(rt; shift(OpS::Sra, v, 0), v, "{v}");
    }
    for row in &BITS {
        let (a, b, and, or, xor, nor) = *row;
        assert_eq!(rt; three(Op3::And, a, b), Some(and), "{a} and {b}");
        assert_eq!(rt; three(Op3::Or, a, b), Some(or), "{a} and {b}");
        assert_eq!(rt; three(Op3::Xor, a, b), Some(xor), "{a} and {b}");
        assert_eq!(rt; three(Op3::Nor, a, b), Some(nor), "{a} and {b}");
    }
}

#[test]
fn a_branch_is_taken_by_the_sign(rt: HostRuntime) {
    for row in &SIGNS {
        let (a, at_most, above, below, at_least) = *row;
        assert_eq!(rt; taken(OpB::Blez, a, 0), at_most, "{a}");
        assert_eq!(rt; taken(OpB::Bgtz, a, 0), above, "{a}");
        assert_eq!(rt; taken(OpB::Bltz, a, 0), below, "{a}");
        assert_eq!(rt; taken(OpB::Bgez, a, 0), at_least, "{a}");
        assert_eq!(rt; taken(OpB::Bltzal, a, 0), below, "{a}");
        assert_eq!(rt; taken(OpB::Bgezal, a, 0), at_least, "{a}");
    }
}
