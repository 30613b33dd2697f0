//! The coprocessor that an instruction needs.

ghost use Rattle.std.specs.Prelude.{◌≡◌};
ghost use Rattle.s2_decode.specs.Units.{unit_of, reserved_unit};

use crate::fields::operation;
use crate::instr::Instr;

/// The coprocessor that a word outside the table needs.
fn unit_of_reserved(word: u32) -> Option<u8>
    ensures { result ≡ reserved_unit word }
{
    match operation(word) {
        16 | 48 | 56 => Some(0),
        _ => None,
    }
}

/// The number of the coprocessor that must be usable for an instruction, 0 to 3, if there is one.
///
/// A word outside the table needs coprocessor 0 where its operation code is one of coprocessor 0's.
/// Source: the exception Coprocessor Unusable of the MIPS R2000.
pub fn unit(i: &Instr) -> Option<u8>
    ensures { result ≡ unit_of i.now }
{
    match *i {
        Instr::Foreign { unit, .. } => Some(unit),
        Instr::Reserved(word) => unit_of_reserved(word),
        Instr::Mfc0 { .. } | Instr::Mtc0 { .. } => Some(0),
        Instr::Tlbr | Instr::Tlbwi | Instr::Tlbwr | Instr::Tlbp | Instr::Rfe => Some(0),
        _ => None,
    }
}
