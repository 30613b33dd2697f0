//! A reader for each shape of a line.

ghost use Rattle.std.specs.Prelude.{◌≡◌, ℕ, ◌≤◌, [], ◌∷◌, codes, IfOk};
ghost use Rattle.s2_text.specs.LineReading.{IsReading, form_reading, answer_of, number_reading};
ghost use Rattle.s2_mnemonics.specs.TextTable.{org_line, entry_line, word_line, label_line, bare_line, one_line, two_line, three_line, shift_line, signed_line, unsigned_line, lui_line, number_line, memory_line, there_line, named_line, one_there_line, one_named_line, two_there_line, two_named_line, says_org, says_entry};
ghost use Rattle.s2_mnemonics.specs.TextTable.{says_word, says_label, says_three, says_turned, says_shift, says_immediate, says_lui, says_division, says_from, says_to, says_jump_there, says_jump_named, says_jr, says_jalr, says_two_there, says_two_named, says_one_there, says_one_named, says_memory, says_mfc0, says_mtc0, says_named};

use crate::line::{Line, Target};
use s2_decode::{Instr, Op3, OpB, OpD, OpI, OpM, OpS};
use s2_text::{Stop, WORD_DIGITS, end, hex, name, number, signed, word};

/// Reads the number of a register.
fn register(bytes: &[u8]) -> Result<(u8, &[u8]), Stop>
    ensures { IsReading (λ x. (x.0, x.1.now)) result (number_reading 0 31 bytes.now) }
{
    let (n, rest) = number(bytes, 0, 31)?;
    Ok((n as u8, rest))
}

pub fn org(line: &[u8]) -> Result<Line, Stop>
    ensures { IsReading (λ x. x) result (answer_of (says_org) (form_reading (org_line) [] line.now)) }
{
    let rest = word(line, b".org 0x")?;
    let (value, rest) = hex(rest, WORD_DIGITS)?;
    end(rest)?;
    Ok(Line::Org(value))
}

pub fn entry(line: &[u8]) -> Result<Line, Stop>
    ensures { IsReading (λ x. x) result (answer_of (says_entry) (form_reading (entry_line) [] line.now)) }
{
    let rest = word(line, b".entry 0x")?;
    let (value, rest) = hex(rest, WORD_DIGITS)?;
    end(rest)?;
    Ok(Line::Entry(value))
}

pub fn word_value(line: &[u8]) -> Result<Line, Stop>
    ensures { IsReading (λ x. x) result (answer_of (says_word) (form_reading (word_line) [] line.now)) }
{
    let rest = word(line, b".word 0x")?;
    let (value, rest) = hex(rest, WORD_DIGITS)?;
    end(rest)?;
    Ok(Line::Word(value))
}

pub fn label_here(line: &[u8]) -> Result<Line, Stop>
    ensures { IsReading (λ x. x) result (answer_of (says_label) (form_reading (label_line) [] line.now)) }
{
    let (name, rest) = name(line)?;
    let rest = word(rest, b":")?;
    end(rest)?;
    Ok(Line::Label(name))
}

pub fn three(line: &[u8], start: &[u8], op: Op3) -> Result<Line, Stop>
    ensures { IsReading (λ x. x) result (answer_of (says_three op) (form_reading (three_line start.now) [] line.now)) }
{
    let rest = word(line, start)?;
    let (rd, rest) = register(rest)?;
    let rest = word(rest, b", r")?;
    let (rs, rest) = register(rest)?;
    let rest = word(rest, b", r")?;
    let (rt, rest) = register(rest)?;
    end(rest)?;
    Ok(Line::Plain(Instr::Three { op, rd, rs, rt }))
}

pub fn turned(line: &[u8], start: &[u8], op: Op3) -> Result<Line, Stop>
    ensures { IsReading (λ x. x) result (answer_of (says_turned op) (form_reading (three_line start.now) [] line.now)) }
{
    let rest = word(line, start)?;
    let (rd, rest) = register(rest)?;
    let rest = word(rest, b", r")?;
    let (rt, rest) = register(rest)?;
    let rest = word(rest, b", r")?;
    let (rs, rest) = register(rest)?;
    end(rest)?;
    Ok(Line::Plain(Instr::Three { op, rd, rs, rt }))
}

pub fn shift(line: &[u8], start: &[u8], op: OpS) -> Result<Line, Stop>
    ensures { IsReading (λ x. x) result (answer_of (says_shift op) (form_reading (shift_line start.now) [] line.now)) }
{
    let rest = word(line, start)?;
    let (rd, rest) = register(rest)?;
    let rest = word(rest, b", r")?;
    let (rt, rest) = register(rest)?;
    let rest = word(rest, b", ")?;
    let (sa, rest) = register(rest)?;
    end(rest)?;
    Ok(Line::Plain(Instr::Shift { op, rd, rt, sa }))
}

pub fn signed_immediate(line: &[u8], start: &[u8], op: OpI) -> Result<Line, Stop>
    ensures { IsReading (λ x. x) result (answer_of (says_immediate op) (form_reading (signed_line start.now) [] line.now)) }
{
    let rest = word(line, start)?;
    let (rt, rest) = register(rest)?;
    let rest = word(rest, b", r")?;
    let (rs, rest) = register(rest)?;
    let rest = word(rest, b", ")?;
    let (imm, rest) = signed(rest)?;
    end(rest)?;
    Ok(Line::Plain(Instr::Imm { op, rt, rs, imm }))
}

pub fn unsigned_immediate(line: &[u8], start: &[u8], op: OpI) -> Result<Line, Stop>
    ensures { IsReading (λ x. x) result (answer_of (says_immediate op) (form_reading (unsigned_line start.now) [] line.now)) }
{
    let rest = word(line, start)?;
    let (rt, rest) = register(rest)?;
    let rest = word(rest, b", r")?;
    let (rs, rest) = register(rest)?;
    let rest = word(rest, b", ")?;
    let (imm, rest) = number(rest, 0, 65535)?;
    end(rest)?;
    let imm = imm as u16;
    Ok(Line::Plain(Instr::Imm { op, rt, rs, imm }))
}

pub fn lui(line: &[u8]) -> Result<Line, Stop>
    ensures { IsReading (λ x. x) result (answer_of (says_lui) (form_reading (lui_line) [] line.now)) }
{
    let rest = word(line, b"lui r")?;
    let (rt, rest) = register(rest)?;
    let rest = word(rest, b", ")?;
    let (imm, rest) = number(rest, 0, 65535)?;
    end(rest)?;
    let imm = imm as u16;
    Ok(Line::Plain(Instr::Lui { rt, imm }))
}

pub fn division(line: &[u8], start: &[u8], op: OpD) -> Result<Line, Stop>
    ensures { IsReading (λ x. x) result (answer_of (says_division op) (form_reading (two_line start.now) [] line.now)) }
{
    let rest = word(line, start)?;
    let (rs, rest) = register(rest)?;
    let rest = word(rest, b", r")?;
    let (rt, rest) = register(rest)?;
    end(rest)?;
    Ok(Line::Plain(Instr::MulDiv { op, rs, rt }))
}

pub fn move_from(line: &[u8], start: &[u8], hi: bool) -> Result<Line, Stop>
    ensures { IsReading (λ x. x) result (answer_of (says_from hi) (form_reading (one_line start.now) [] line.now)) }
{
    let rest = word(line, start)?;
    let (rd, rest) = register(rest)?;
    end(rest)?;
    Ok(Line::Plain(Instr::MoveFrom { hi, rd }))
}

pub fn move_to(line: &[u8], start: &[u8], hi: bool) -> Result<Line, Stop>
    ensures { IsReading (λ x. x) result (answer_of (says_to hi) (form_reading (one_line start.now) [] line.now)) }
{
    let rest = word(line, start)?;
    let (rs, rest) = register(rest)?;
    end(rest)?;
    Ok(Line::Plain(Instr::MoveTo { hi, rs }))
}

pub fn jump_there(line: &[u8], start: &[u8], link: bool) -> Result<Line, Stop>
    ensures { IsReading (λ x. x) result (answer_of (says_jump_there link) (form_reading (there_line start.now) [] line.now)) }
{
    let rest = word(line, start)?;
    let rest = word(rest, b"0x")?;
    let (address, rest) = hex(rest, WORD_DIGITS)?;
    end(rest)?;
    let to = Target::Address(address);
    Ok(Line::Jump { link, to })
}

pub fn jump_named(line: &[u8], start: &[u8], link: bool) -> Result<Line, Stop>
    ensures { IsReading (λ x. x) result (answer_of (says_jump_named link) (form_reading (named_line start.now) [] line.now)) }
{
    let rest = word(line, start)?;
    let (name, rest) = name(rest)?;
    end(rest)?;
    let to = Target::Label(name);
    Ok(Line::Jump { link, to })
}

pub fn jump_register(line: &[u8]) -> Result<Line, Stop>
    ensures { IsReading (λ x. x) result (answer_of (says_jr) (form_reading (one_line (codes "jr r")) [] line.now)) }
{
    let rest = word(line, b"jr r")?;
    let (rs, rest) = register(rest)?;
    end(rest)?;
    Ok(Line::Plain(Instr::JumpReg { rs }))
}

pub fn jump_link_register(line: &[u8]) -> Result<Line, Stop>
    ensures { IsReading (λ x. x) result (answer_of (says_jalr) (form_reading (two_line (codes "jalr r")) [] line.now)) }
{
    let rest = word(line, b"jalr r")?;
    let (rd, rest) = register(rest)?;
    let rest = word(rest, b", r")?;
    let (rs, rest) = register(rest)?;
    end(rest)?;
    Ok(Line::Plain(Instr::JumpLinkReg { rd, rs }))
}

pub fn two_there(line: &[u8], start: &[u8], op: OpB) -> Result<Line, Stop>
    ensures { IsReading (λ x. x) result (answer_of (says_two_there op) (form_reading (two_there_line start.now) [] line.now)) }
{
    let rest = word(line, start)?;
    let (rs, rest) = register(rest)?;
    let rest = word(rest, b", r")?;
    let (rt, rest) = register(rest)?;
    let rest = word(rest, b", ")?;
    let rest = word(rest, b"0x")?;
    let (address, rest) = hex(rest, WORD_DIGITS)?;
    end(rest)?;
    let to = Target::Address(address);
    Ok(Line::Branch { op, rs, rt, to })
}

pub fn two_named(line: &[u8], start: &[u8], op: OpB) -> Result<Line, Stop>
    ensures { IsReading (λ x. x) result (answer_of (says_two_named op) (form_reading (two_named_line start.now) [] line.now)) }
{
    let rest = word(line, start)?;
    let (rs, rest) = register(rest)?;
    let rest = word(rest, b", r")?;
    let (rt, rest) = register(rest)?;
    let rest = word(rest, b", ")?;
    let (name, rest) = name(rest)?;
    end(rest)?;
    let to = Target::Label(name);
    Ok(Line::Branch { op, rs, rt, to })
}

pub fn one_there(line: &[u8], start: &[u8], op: OpB) -> Result<Line, Stop>
    ensures { IsReading (λ x. x) result (answer_of (says_one_there op) (form_reading (one_there_line start.now) [] line.now)) }
{
    let rest = word(line, start)?;
    let (rs, rest) = register(rest)?;
    let rest = word(rest, b", ")?;
    let rest = word(rest, b"0x")?;
    let (address, rest) = hex(rest, WORD_DIGITS)?;
    end(rest)?;
    let to = Target::Address(address);
    Ok(Line::Branch { op, rs, rt: 0, to })
}

pub fn one_named(line: &[u8], start: &[u8], op: OpB) -> Result<Line, Stop>
    ensures { IsReading (λ x. x) result (answer_of (says_one_named op) (form_reading (one_named_line start.now) [] line.now)) }
{
    let rest = word(line, start)?;
    let (rs, rest) = register(rest)?;
    let rest = word(rest, b", ")?;
    let (name, rest) = name(rest)?;
    end(rest)?;
    let to = Target::Label(name);
    Ok(Line::Branch { op, rs, rt: 0, to })
}

pub fn memory(line: &[u8], start: &[u8], op: OpM) -> Result<Line, Stop>
    ensures { IsReading (λ x. x) result (answer_of (says_memory op) (form_reading (memory_line start.now) [] line.now)) }
{
    let rest = word(line, start)?;
    let (rt, rest) = register(rest)?;
    let rest = word(rest, b", ")?;
    let (off, rest) = signed(rest)?;
    let rest = word(rest, b"(r")?;
    let (base, rest) = register(rest)?;
    let rest = word(rest, b")")?;
    end(rest)?;
    Ok(Line::Plain(Instr::Memory { op, rt, base, off }))
}

pub fn from_coprocessor(line: &[u8]) -> Result<Line, Stop>
    ensures { IsReading (λ x. x) result (answer_of (says_mfc0) (form_reading (number_line (codes "mfc0 r")) [] line.now)) }
{
    let rest = word(line, b"mfc0 r")?;
    let (rt, rest) = register(rest)?;
    let rest = word(rest, b", ")?;
    let (rd, rest) = register(rest)?;
    end(rest)?;
    Ok(Line::Plain(Instr::Mfc0 { rt, rd }))
}

pub fn to_coprocessor(line: &[u8]) -> Result<Line, Stop>
    ensures { IsReading (λ x. x) result (answer_of (says_mtc0) (form_reading (number_line (codes "mtc0 r")) [] line.now)) }
{
    let rest = word(line, b"mtc0 r")?;
    let (rt, rest) = register(rest)?;
    let rest = word(rest, b", ")?;
    let (rd, rest) = register(rest)?;
    end(rest)?;
    Ok(Line::Plain(Instr::Mtc0 { rt, rd }))
}

pub fn named(line: &[u8], name: &[u8], i: Instr) -> Result<Line, Stop>
    ensures { IsReading (λ x. x) result (answer_of (says_named i) (form_reading (bare_line name.now) [] line.now)) }
{
    let rest = word(line, name)?;
    end(rest)?;
    Ok(Line::Plain(i))
}
