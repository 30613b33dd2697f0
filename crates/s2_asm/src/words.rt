//! The word of a line, by the labels of the whole text.

ghost use Rattle.std.specs.Prelude.{◌≡◌, ℕ, ◌+◌, ◌<◌, ◌≤◌, ◌%◌, List, Option, Ok};
ghost use Rattle.s2_mnemonics.specs.declared.line.Line.{Line};
ghost use Rattle.s2_mnemonics.specs.declared.line.Target.{Target};
ghost use Rattle.s2_mnemonics.specs.LineWords.{distance, address_of, jump_reaches, branch_reaches};
ghost use Rattle.s2_decode.specs.Properness.{IsProper, IsBranchRegister};
ghost use Rattle.s2_asm.specs.Cutting.{Holds};
ghost use Rattle.s2_asm.specs.LineFaults.{IsGood, IsWritten, Gives};

use crate::fault::AsmFault;
use crate::progress::Labels;
use s2_decode::{Instr, OpB, encode};
use s2_mnemonics::{Line, Target};

/// Where a target lies.
fn address(labels: &Labels, to: &Target) -> Option<u32>
    ensures { (list : List (List ℕ × ℕ)) → Holds labels.now list → result ≡ address_of list to.now }
{
    match to {
        Target::Address(x) => Some(*x),
        Target::Label(name) => match labels.get(name) {
            Some(x) => Some(*x),
            None => None,
        },
    }
}

/// How far an address lies behind the next instruction, modulo 2^32.
fn distance_to(at: u32, x: u32) -> u32
    ensures { result ≡ distance at x }
{
    ((x as u64 + (0x2_0000_0000 - (at as u64 + 4))) % 0x1_0000_0000) as u32
}

/// Whether a jump at this address reaches.
fn jump_comes_to(at: u32, x: u32) -> bool
    ensures { result ≡ jump_reaches at x }
{
    x % 4 == 0 && x / 0x1000_0000 == at.wrapping_add(4) / 0x1000_0000
}

/// Whether a branch at this address reaches.
fn branch_comes_to(at: u32, x: u32) -> bool
    ensures { result ≡ branch_reaches at x }
{
    let distance = distance_to(at, x);
    x % 4 == 0 && (distance < 131072 || distance >= 0xFFFE_0000)
}

/// The word of a jump.
fn jump_word(labels: &Labels, at: u32, link: bool, to: &Target, n: u64) -> Result<u32, AsmFault>
    ensures { (list : List (List ℕ × ℕ)) → Holds labels.now list → Gives list at n (Line.Jump link to.now) result }
{
    let Some(x) = address(labels, to) else {
        return Err(AsmFault::Unknown { line: n });
    };
    if !jump_comes_to(at, x) {
        return Err(AsmFault::Reach { line: n });
    }
    let target = x / 4 % 0x400_0000;
    Ok(encode(&Instr::Jump { link, target }))
}

/// The word of a branch.
fn branch_word(
    labels: &Labels,
    at: u32,
    op: OpB,
    rs: u8,
    rt: u8,
    to: &Target,
    n: u64,
) -> Result<u32, AsmFault>
    requires first { rs < 32 }
    requires second { IsBranchRegister op rt }
    ensures { (list : List (List ℕ × ℕ)) → Holds labels.now list → Gives list at n (Line.Branch op rs rt to.now) result }
{
    let Some(x) = address(labels, to) else {
        return Err(AsmFault::Unknown { line: n });
    };
    if !branch_comes_to(at, x) {
        return Err(AsmFault::Reach { line: n });
    }
    let off = (distance_to(at, x) / 4 % 65536) as u16;
    Ok(encode(&Instr::Branch { op, rs, rt, off }))
}

/// The word of an instruction with no target.
fn plain_word(i: &Instr) -> u32
    requires { IsProper i.now }
    ensures { (labels : List (List ℕ × ℕ)) (at : ℕ) (n : ℕ) → Gives labels at n (Line.Plain i.now) (Ok result) }
{
    encode(i)
}

/// The word of a line that gives one, at this address, or its fault.
pub fn line_word(labels: &Labels, at: u32, line: &Line, n: u64) -> Result<u32, AsmFault>
    requires good { IsGood line.now }
    requires written { IsWritten line.now }
    ensures { (list : List (List ℕ × ℕ)) → Holds labels.now list → Gives list at n line.now result }
{
    match line {
        Line::Jump { link, to } => jump_word(labels, at, *link, to, n),
        Line::Branch { op, rs, rt, to } => branch_word(labels, at, *op, *rs, *rt, to, n),
        Line::Plain(i) => Ok(plain_word(i)),
        Line::Word(word) => Ok(*word),
        Line::Org(_) | Line::Entry(_) | Line::Label(_) => Ok(0),
    }
}
