//! The table of lines.

ghost use Rattle.std.specs.Prelude.{◌≡◌, ℕ, Some, Ok, length, ◌≤◌};
ghost use Rattle.s2_text.specs.LineReading.{ReadsRows};
ghost use Rattle.s2_text.specs.LineTables.{SaysIn};
ghost use Rattle.s2_text.specs.LineTables.{ReadsLine};
ghost use Rattle.s2_mnemonics.specs.declared.line.Line.{Line};
ghost use Rattle.s2_mnemonics.specs.TextTable.{direct_rows, three_rows, variable_shift_rows, shift_rows, immediate_rows, division_rows, move_rows, jump_rows, branch_on_two_rows, branch_on_one_rows, memory_rows, coprocessor_rows, named_rows, text_rows};

use crate::line::Line;
use crate::line_readers::{
    division, entry, from_coprocessor, jump_link_register, jump_named, jump_register, jump_there,
    label_here, lui, memory, move_from, move_to, named, one_named, one_there, org, shift,
    signed_immediate, three, to_coprocessor, turned, two_named, two_there, unsigned_immediate,
    word_value,
};
use s2_decode::{Instr, Op3, OpB, OpD, OpI, OpM, OpS};
use s2_text::{BadLine, HELD_BYTES, Stop, either, front, with_remarks};

fn direct_line(line: &[u8]) -> Result<Line, Stop>
    ensures { ReadsRows direct_rows line.now result }
{
    let found = label_here(line);
    let found = either(word_value(line), found);
    let found = either(entry(line), found);
    either(org(line), found)
}

fn three_line(line: &[u8]) -> Result<Line, Stop>
    ensures { ReadsRows three_rows line.now result }
{
    let found = three(line, b"sltu r", Op3::Sltu);
    let found = either(three(line, b"slt r", Op3::Slt), found);
    let found = either(three(line, b"nor r", Op3::Nor), found);
    let found = either(three(line, b"xor r", Op3::Xor), found);
    let found = either(three(line, b"or r", Op3::Or), found);
    let found = either(three(line, b"and r", Op3::And), found);
    let found = either(three(line, b"subu r", Op3::Subu), found);
    let found = either(three(line, b"sub r", Op3::Sub), found);
    let found = either(three(line, b"addu r", Op3::Addu), found);
    either(three(line, b"add r", Op3::Add), found)
}

fn variable_shift_line(line: &[u8]) -> Result<Line, Stop>
    ensures { ReadsRows variable_shift_rows line.now result }
{
    let found = turned(line, b"srav r", Op3::Srav);
    let found = either(turned(line, b"srlv r", Op3::Srlv), found);
    either(turned(line, b"sllv r", Op3::Sllv), found)
}

fn shift_line(line: &[u8]) -> Result<Line, Stop>
    ensures { ReadsRows shift_rows line.now result }
{
    let found = shift(line, b"sra r", OpS::Sra);
    let found = either(shift(line, b"srl r", OpS::Srl), found);
    either(shift(line, b"sll r", OpS::Sll), found)
}

fn immediate_line(line: &[u8]) -> Result<Line, Stop>
    ensures { ReadsRows immediate_rows line.now result }
{
    let found = lui(line);
    let found = either(unsigned_immediate(line, b"xori r", OpI::Xori), found);
    let found = either(unsigned_immediate(line, b"ori r", OpI::Ori), found);
    let found = either(unsigned_immediate(line, b"andi r", OpI::Andi), found);
    let found = either(signed_immediate(line, b"sltiu r", OpI::Sltiu), found);
    let found = either(signed_immediate(line, b"slti r", OpI::Slti), found);
    let found = either(signed_immediate(line, b"addiu r", OpI::Addiu), found);
    either(signed_immediate(line, b"addi r", OpI::Addi), found)
}

fn division_line(line: &[u8]) -> Result<Line, Stop>
    ensures { ReadsRows division_rows line.now result }
{
    let found = division(line, b"divu r", OpD::Divu);
    let found = either(division(line, b"div r", OpD::Div), found);
    let found = either(division(line, b"multu r", OpD::Multu), found);
    either(division(line, b"mult r", OpD::Mult), found)
}

fn move_line(line: &[u8]) -> Result<Line, Stop>
    ensures { ReadsRows move_rows line.now result }
{
    let found = move_to(line, b"mtlo r", false);
    let found = either(move_to(line, b"mthi r", true), found);
    let found = either(move_from(line, b"mflo r", false), found);
    either(move_from(line, b"mfhi r", true), found)
}

fn jump_line(line: &[u8]) -> Result<Line, Stop>
    ensures { ReadsRows jump_rows line.now result }
{
    let found = jump_link_register(line);
    let found = either(jump_register(line), found);
    let found = either(jump_named(line, b"jal ", true), found);
    let found = either(jump_there(line, b"jal ", true), found);
    let found = either(jump_named(line, b"j ", false), found);
    either(jump_there(line, b"j ", false), found)
}

fn branch_on_two_line(line: &[u8]) -> Result<Line, Stop>
    ensures { ReadsRows branch_on_two_rows line.now result }
{
    let found = two_named(line, b"bne r", OpB::Bne);
    let found = either(two_there(line, b"bne r", OpB::Bne), found);
    let found = either(two_named(line, b"beq r", OpB::Beq), found);
    either(two_there(line, b"beq r", OpB::Beq), found)
}

fn branch_on_one_line(line: &[u8]) -> Result<Line, Stop>
    ensures { ReadsRows branch_on_one_rows line.now result }
{
    let found = one_named(line, b"bgezal r", OpB::Bgezal);
    let found = either(one_there(line, b"bgezal r", OpB::Bgezal), found);
    let found = either(one_named(line, b"bltzal r", OpB::Bltzal), found);
    let found = either(one_there(line, b"bltzal r", OpB::Bltzal), found);
    let found = either(one_named(line, b"bgez r", OpB::Bgez), found);
    let found = either(one_there(line, b"bgez r", OpB::Bgez), found);
    let found = either(one_named(line, b"bltz r", OpB::Bltz), found);
    let found = either(one_there(line, b"bltz r", OpB::Bltz), found);
    let found = either(one_named(line, b"bgtz r", OpB::Bgtz), found);
    let found = either(one_there(line, b"bgtz r", OpB::Bgtz), found);
    let found = either(one_named(line, b"blez r", OpB::Blez), found);
    either(one_there(line, b"blez r", OpB::Blez), found)
}

fn memory_line(line: &[u8]) -> Result<Line, Stop>
    ensures { ReadsRows memory_rows line.now result }
{
    let found = memory(line, b"swr r", OpM::Swr);
    let found = either(memory(line, b"sw r", OpM::Sw), found);
    let found = either(memory(line, b"swl r", OpM::Swl), found);
    let found = either(memory(line, b"sh r", OpM::Sh), found);
    let found = either(memory(line, b"sb r", OpM::Sb), found);
    let found = either(memory(line, b"lwr r", OpM::Lwr), found);
    let found = either(memory(line, b"lhu r", OpM::Lhu), found);
    let found = either(memory(line, b"lbu r", OpM::Lbu), found);
    let found = either(memory(line, b"lw r", OpM::Lw), found);
    let found = either(memory(line, b"lwl r", OpM::Lwl), found);
    let found = either(memory(line, b"lh r", OpM::Lh), found);
    either(memory(line, b"lb r", OpM::Lb), found)
}

fn coprocessor_line(line: &[u8]) -> Result<Line, Stop>
    ensures { ReadsRows coprocessor_rows line.now result }
{
    let found = to_coprocessor(line);
    either(from_coprocessor(line), found)
}

fn named_line(line: &[u8]) -> Result<Line, Stop>
    ensures { ReadsRows named_rows line.now result }
{
    let found = named(line, b"rfe", Instr::Rfe);
    let found = either(named(line, b"tlbp", Instr::Tlbp), found);
    let found = either(named(line, b"tlbwr", Instr::Tlbwr), found);
    let found = either(named(line, b"tlbwi", Instr::Tlbwi), found);
    let found = either(named(line, b"tlbr", Instr::Tlbr), found);
    let found = either(named(line, b"break", Instr::Break), found);
    either(named(line, b"syscall", Instr::Syscall), found)
}

/// Reads a line of the table.
fn table_line(line: &[u8]) -> Result<Line, Stop>
    ensures { ReadsRows text_rows line.now result }
{
    let found = named_line(line);
    let found = either(coprocessor_line(line), found);
    let found = either(memory_line(line), found);
    let found = either(branch_on_one_line(line), found);
    let found = either(branch_on_two_line(line), found);
    let found = either(jump_line(line), found);
    let found = either(move_line(line), found);
    let found = either(division_line(line), found);
    let found = either(immediate_line(line), found);
    let found = either(shift_line(line), found);
    let found = either(variable_shift_line(line), found);
    let found = either(three_line(line), found);
    either(direct_line(line), found)
}

/// Reads a line of a text. `None` is an empty line or a comment.
pub fn read_line(line: &[u8]) -> Result<Option<Line>, BadLine>
    ensures read { ReadsLine text_rows line.now result }
    ensures again { (x : Line) → SaysIn text_rows x line.now → result ≡ Ok (Some x) }
{
    let seen = front(line, HELD_BYTES);
    with_remarks(seen, table_line(seen))
}
