//! Lines that are written: of an instruction and of a word.

ghost use Rattle.std.specs.Prelude.{◌≡◌, ℕ, ◌+◌, ◌*◌, ◌/◌, ◌%◌, ◌-◌, ◌^◌, ◌<◌, ◌≤◌, ◌++◌, ◌∷◌, [], codes, length, IfSome, IfNone, Bool, nat_lt, if◌then◌else◌, Result, Option};
ghost use Rattle.std.specs.Fmt.{decimal};
ghost use Rattle.s2_text.specs.LineGrammar.{num, spelling, Fits, signed_text};
ghost use Rattle.s2_text.specs.HexText.{hex_text};
ghost use Rattle.s2_text.specs.LineTables.{ReadsLine};
ghost use Rattle.s2_decode.specs.declared.instr.Instr.{Instr};
ghost use Rattle.s2_decode.specs.Properness.{IsProper, IsBranchRegister};
ghost use Rattle.s2_mnemonics.specs.declared.line.Line.{Line};
ghost use Rattle.s2_mnemonics.specs.TextTable.{text_rows, word_line, bare_line, one_line, two_line, three_line, shift_line, signed_line, unsigned_line, lui_line, number_line, memory_line, there_line, one_there_line, two_there_line};
ghost use Rattle.s2_mnemonics.specs.LineWords.{three_start, shift_start, immediate_start, division_start, branch_start, memory_start, from_start, to_start, jump_start, three_form, three_values, immediate_form, branch_form, branch_values, plain_form, plain_values, line_text, shown, IsPlain, HasName, jump_target, branch_target, distance, Shows, GivesWord, Assembles};
ghost use Rattle.s2_mnemonics.specs.declared.line.Target.{Target};
ghost use Rattle.s2_text.specs.declared.stops.BadLine.{BadLine};

use s2_decode::{Instr, Op3, OpB, OpD, OpI, OpM, OpS, decode, encode};
use s2_text::{Text, WORD_DIGITS, put_dec, put_hex, put_signed, put_word};

/// How the line of such an instruction begins.
fn name_of_three(op: Op3) -> &'static [u8]
    ensures start { result.now ≡ three_start op }
    ensures short { length result.now ≤ 9 }
{
    match op {
        Op3::Add => b"add r",
        Op3::Addu => b"addu r",
        Op3::Sub => b"sub r",
        Op3::Subu => b"subu r",
        Op3::And => b"and r",
        Op3::Or => b"or r",
        Op3::Xor => b"xor r",
        Op3::Nor => b"nor r",
        Op3::Slt => b"slt r",
        Op3::Sltu => b"sltu r",
        Op3::Sllv => b"sllv r",
        Op3::Srlv => b"srlv r",
        Op3::Srav => b"srav r",
    }
}

/// How the line of such an instruction begins.
fn name_of_shift(op: OpS) -> &'static [u8]
    ensures start { result.now ≡ shift_start op }
    ensures short { length result.now ≤ 9 }
{
    match op {
        OpS::Sll => b"sll r",
        OpS::Srl => b"srl r",
        OpS::Sra => b"sra r",
    }
}

/// How the line of such an instruction begins.
fn name_of_immediate(op: OpI) -> &'static [u8]
    ensures start { result.now ≡ immediate_start op }
    ensures short { length result.now ≤ 9 }
{
    match op {
        OpI::Addi => b"addi r",
        OpI::Addiu => b"addiu r",
        OpI::Slti => b"slti r",
        OpI::Sltiu => b"sltiu r",
        OpI::Andi => b"andi r",
        OpI::Ori => b"ori r",
        OpI::Xori => b"xori r",
    }
}

/// How the line of such an instruction begins.
fn name_of_division(op: OpD) -> &'static [u8]
    ensures start { result.now ≡ division_start op }
    ensures short { length result.now ≤ 9 }
{
    match op {
        OpD::Mult => b"mult r",
        OpD::Multu => b"multu r",
        OpD::Div => b"div r",
        OpD::Divu => b"divu r",
    }
}

/// How the line of such an instruction begins.
fn name_of_branch(op: OpB) -> &'static [u8]
    ensures start { result.now ≡ branch_start op }
    ensures short { length result.now ≤ 9 }
{
    match op {
        OpB::Beq => b"beq r",
        OpB::Bne => b"bne r",
        OpB::Blez => b"blez r",
        OpB::Bgtz => b"bgtz r",
        OpB::Bltz => b"bltz r",
        OpB::Bgez => b"bgez r",
        OpB::Bltzal => b"bltzal r",
        OpB::Bgezal => b"bgezal r",
    }
}

/// How the line of such an instruction begins.
fn name_of_memory(op: OpM) -> &'static [u8]
    ensures start { result.now ≡ memory_start op }
    ensures short { length result.now ≤ 9 }
{
    match op {
        OpM::Lb => b"lb r",
        OpM::Lh => b"lh r",
        OpM::Lwl => b"lwl r",
        OpM::Lw => b"lw r",
        OpM::Lbu => b"lbu r",
        OpM::Lhu => b"lhu r",
        OpM::Lwr => b"lwr r",
        OpM::Sb => b"sb r",
        OpM::Sh => b"sh r",
        OpM::Swl => b"swl r",
        OpM::Sw => b"sw r",
        OpM::Swr => b"swr r",
    }
}

#[tactic(auto, using(crate::proofs::Joins::writes))]
/// The start of a line, and a register.
fn put_first(start: &[u8], r: u8) -> Text
    requires { length start.now ≤ 9 }
    ensures text { result.items ≡ start.now ++ decimal r }
    ensures size { length result.items ≤ 29 }
{
    let mut text = Text::new();
    put_word(&mut text, start);
    put_dec(&mut text, r as u64);
    text
}

#[tactic(auto, using(crate::proofs::Joins::writes))]
/// The next register.
fn put_register(start: Text, r: u8) -> Text
    requires { length start.items ≤ 60 }
    ensures text { result.items ≡ start.items ++ codes ", r" ++ decimal r }
    ensures size { length result.items ≤ length start.items + 23 }
{
    let mut text = start;
    put_word(&mut text, b", r");
    put_dec(&mut text, r as u64);
    text
}

#[tactic(auto, using(crate::proofs::Joins::writes))]
/// A number behind the registers.
fn put_number(start: Text, n: u16) -> Text
    requires { length start.items ≤ 90 }
    ensures { result.items ≡ start.items ++ codes ", " ++ decimal n }
{
    let mut text = start;
    put_word(&mut text, b", ");
    put_dec(&mut text, n as u64);
    text
}

#[tactic(auto, using(crate::proofs::Joins::writes))]
/// A signed number behind the registers.
fn put_offset(start: Text, n: u16) -> Text
    requires { length start.items ≤ 60 }
    ensures text { result.items ≡ start.items ++ codes ", " ++ signed_text n }
    ensures size { length result.items ≤ length start.items + 23 }
{
    let mut text = start;
    put_word(&mut text, b", ");
    put_signed(&mut text, n);
    text
}

#[tactic(auto, using(crate::proofs::Joins::writes))]
/// An address.
fn put_address(start: Text, x: u32) -> Text
    requires { length start.items ≤ 90 }
    ensures { result.items ≡ start.items ++ codes "0x" ++ hex_text 8 x }
{
    let mut text = start;
    put_word(&mut text, b"0x");
    put_hex(&mut text, x, WORD_DIGITS);
    text
}

#[tactic(auto, using(crate::proofs::Joins::writes))]
/// An address behind the registers.
fn put_next_address(start: Text, x: u32) -> Text
    requires { length start.items ≤ 80 }
    ensures { result.items ≡ start.items ++ codes ", " ++ codes "0x" ++ hex_text 8 x }
{
    let mut text = start;
    put_word(&mut text, b", ");
    put_address(text, x)
}

#[tactic(auto, using(crate::proofs::Joins::writes))]
fn put_one(start: &[u8], a: u8) -> Text
    requires { length start.now ≤ 9 }
    ensures { result.items ≡ spelling (one_line start.now) (num a ∷ []) }
{
    put_first(start, a)
}

#[tactic(auto, using(crate::proofs::Joins::writes))]
fn put_two(start: &[u8], a: u8, b: u8) -> Text
    requires { length start.now ≤ 9 }
    ensures { result.items ≡ spelling (two_line start.now) (num a ∷ num b ∷ []) }
{
    put_register(put_first(start, a), b)
}

#[tactic(auto, using(crate::proofs::Joins::writes))]
fn put_three(start: &[u8], a: u8, b: u8, c: u8) -> Text
    requires { length start.now ≤ 9 }
    ensures { result.items ≡ spelling (three_line start.now) (num a ∷ num b ∷ num c ∷ []) }
{
    put_register(put_register(put_first(start, a), b), c)
}

#[tactic(auto, using(crate::proofs::Joins::writes))]
fn put_shift(start: &[u8], a: u8, b: u8, n: u8) -> Text
    requires { length start.now ≤ 9 }
    ensures { result.items ≡ spelling (shift_line start.now) (num a ∷ num b ∷ num n ∷ []) }
{
    put_number(put_register(put_first(start, a), b), n as u16)
}

#[tactic(auto, using(crate::proofs::Joins::writes))]
fn put_signed_immediate(start: &[u8], a: u8, b: u8, n: u16) -> Text
    requires { length start.now ≤ 9 }
    ensures { result.items ≡ spelling (signed_line start.now) (num a ∷ num b ∷ num n ∷ []) }
{
    put_offset(put_register(put_first(start, a), b), n)
}

#[tactic(auto, using(crate::proofs::Joins::writes))]
fn put_unsigned_immediate(start: &[u8], a: u8, b: u8, n: u16) -> Text
    requires { length start.now ≤ 9 }
    ensures { result.items ≡ spelling (unsigned_line start.now) (num a ∷ num b ∷ num n ∷ []) }
{
    put_number(put_register(put_first(start, a), b), n)
}

#[tactic(auto, using(crate::proofs::Joins::writes))]
fn put_numbered(start: &[u8], a: u8, n: u8) -> Text
    requires { length start.now ≤ 9 }
    ensures { result.items ≡ spelling (number_line start.now) (num a ∷ num n ∷ []) }
{
    put_number(put_first(start, a), n as u16)
}

#[tactic(auto, using(crate::proofs::Joins::writes))]
fn put_memory(start: &[u8], a: u8, n: u16, b: u8) -> Text
    requires { length start.now ≤ 9 }
    ensures { result.items ≡ spelling (memory_line start.now) (num a ∷ num n ∷ num b ∷ []) }
{
    let mut text = put_offset(put_first(start, a), n);
    put_word(&mut text, b"(r");
    put_dec(&mut text, b as u64);
    put_word(&mut text, b")");
    text
}

#[tactic(auto, using(crate::proofs::Joins::writes))]
fn put_there(start: &[u8], x: u32) -> Text
    requires { length start.now ≤ 9 }
    ensures { result.items ≡ spelling (there_line start.now) (num x ∷ []) }
{
    put_address(put_bare(start), x)
}

#[tactic(auto, using(crate::proofs::Joins::writes))]
fn put_one_there(start: &[u8], a: u8, x: u32) -> Text
    requires { length start.now ≤ 9 }
    ensures { result.items ≡ spelling (one_there_line start.now) (num a ∷ num x ∷ []) }
{
    put_next_address(put_first(start, a), x)
}

#[tactic(auto, using(crate::proofs::Joins::writes))]
fn put_two_there(start: &[u8], a: u8, b: u8, x: u32) -> Text
    requires { length start.now ≤ 9 }
    ensures { result.items ≡ spelling (two_there_line start.now) (num a ∷ num b ∷ num x ∷ []) }
{
    put_next_address(put_register(put_first(start, a), b), x)
}

#[tactic(auto, using(crate::proofs::Joins::writes))]
fn put_bare(start: &[u8]) -> Text
    requires { length start.now ≤ 9 }
    ensures text { result.items ≡ spelling (bare_line start.now) [] }
    ensures size { length result.items ≤ 9 }
{
    let mut text = Text::new();
    put_word(&mut text, start);
    text
}

#[tactic(auto, using(crate::proofs::Joins::writes))]
fn put_lui(rt: u8, imm: u16) -> Text
    ensures { result.items ≡ spelling lui_line (num rt ∷ num imm ∷ []) }
{
    put_number(put_first(b"lui r", rt), imm)
}

#[tactic(auto, using(crate::proofs::Joins::writes))]
/// The line of a word.
fn word_text(word: u32) -> Text
    ensures { result.items ≡ spelling word_line (num word ∷ []) }
{
    put_address(put_bare(b".word "), word)
}

fn three_text(op: Op3, rd: u8, rs: u8, rt: u8) -> Text
    ensures { result.items ≡ spelling (three_form op) (three_values op rd rs rt) }
{
    match op {
        Op3::Sllv | Op3::Srlv | Op3::Srav => put_three(name_of_three(op), rd, rt, rs),
        _ => put_three(name_of_three(op), rd, rs, rt),
    }
}

fn immediate_text(op: OpI, rt: u8, rs: u8, imm: u16) -> Text
    ensures { result.items ≡ spelling (immediate_form op) (num rt ∷ num rs ∷ num imm ∷ []) }
{
    match op {
        OpI::Andi | OpI::Ori | OpI::Xori => put_unsigned_immediate(
            name_of_immediate(op),
            rt,
            rs,
            imm,
        ),
        _ => put_signed_immediate(name_of_immediate(op), rt, rs, imm),
    }
}

fn branch_text(op: OpB, rs: u8, rt: u8, x: u32) -> Text
    ensures { result.items ≡ spelling (branch_form op (Target.Address x)) (branch_values op rs rt (Target.Address x)) }
{
    match op {
        OpB::Beq | OpB::Bne => put_two_there(name_of_branch(op), rs, rt, x),
        _ => put_one_there(name_of_branch(op), rs, x),
    }
}

/// The target of a jump at this address.
fn target_of_jump(at: u32, target: u32) -> u32
    requires { target < 2 ^ 26 }
    ensures { result ≡ jump_target at target }
{
    at.wrapping_add(4) / 0x1000_0000 * 0x1000_0000 + target * 4
}

/// The target of a branch at this address.
fn target_of_branch(at: u32, off: u16) -> u32
    ensures { result ≡ branch_target at off }
{
    let distance = if off < 32768 {
        off as u32 * 4
    } else {
        off as u32 * 4 + 0xFFFC_0000
    };
    at.wrapping_add(4).wrapping_add(distance)
}

/// The line of an instruction that is written without a target.
fn plain_text(i: &Instr) -> Option<Text>
    requires { IsProper i.now }
    ensures some { IfSome result (λ t. IsPlain i.now × Fits (plain_form i.now) (plain_values i.now) × (t.items ≡ spelling (plain_form i.now) (plain_values i.now))) }
    ensures none { IfNone result (IsPlain i.now → ⊥) }
{
    Some(match *i {
        Instr::Three { op, rd, rs, rt } => three_text(op, rd, rs, rt),
        Instr::Shift { op, rd, rt, sa } => put_shift(name_of_shift(op), rd, rt, sa),
        Instr::Imm { op, rt, rs, imm } => immediate_text(op, rt, rs, imm),
        Instr::Lui { rt, imm } => put_lui(rt, imm),
        Instr::MulDiv { op, rs, rt } => put_two(name_of_division(op), rs, rt),
        Instr::MoveFrom { hi, rd } => put_one(if hi { b"mfhi r" } else { b"mflo r" }, rd),
        Instr::MoveTo { hi, rs } => put_one(if hi { b"mthi r" } else { b"mtlo r" }, rs),
        Instr::JumpReg { rs } => put_one(b"jr r", rs),
        Instr::JumpLinkReg { rd, rs } => put_two(b"jalr r", rd, rs),
        Instr::Memory { op, rt, base, off } => put_memory(name_of_memory(op), rt, off, base),
        Instr::Mfc0 { rt, rd } => put_numbered(b"mfc0 r", rt, rd),
        Instr::Mtc0 { rt, rd } => put_numbered(b"mtc0 r", rt, rd),
        Instr::Syscall => put_bare(b"syscall"),
        Instr::Break => put_bare(b"break"),
        Instr::Tlbr => put_bare(b"tlbr"),
        Instr::Tlbwi => put_bare(b"tlbwi"),
        Instr::Tlbwr => put_bare(b"tlbwr"),
        Instr::Tlbp => put_bare(b"tlbp"),
        Instr::Rfe => put_bare(b"rfe"),
        Instr::Jump { .. } | Instr::Branch { .. } => return None,
        Instr::Foreign { .. } | Instr::Reserved(_) => return None,
    })
}

/// The line of an instruction at this address, with its target as an address.
#[tactic(auto, using(crate::proofs::LineLaws::shows))]
fn instr_text(at: u32, i: &Instr) -> Option<Text>
    requires proper { IsProper i.now }
    requires aligned { at % 4 ≡ 0 }
    ensures some { IfSome result (λ t. Shows at i.now t.items) }
    ensures none { IfNone result (HasName i.now → ⊥) }
{
    match *i {
        Instr::Jump { link, target } => {
            let start: &[u8] = if link { b"jal " } else { b"j " };
            Some(put_there(start, target_of_jump(at, target)))
        }
        Instr::Branch { op, rs, rt, off } => {
            Some(branch_text(op, rs, rt, target_of_branch(at, off)))
        }
        _ => plain_text(i),
    }
}

/// The line of a word at this address: its instruction's, with a target as an address, where the word is the
/// one that the table gives for it, else a line of the word itself.
pub fn disassemble(at: u32, word: u32) -> Text
    requires { at % 4 ≡ 0 }
    ensures line { (l : Line) × GivesWord at word l × (result.items ≡ line_text l) }
    ensures again { (r : Result (Option Line) BadLine) → ReadsLine text_rows result.items r → Assembles at word r }
{
    let i = decode(word);
    if encode(&i) != word {
        return word_text(word);
    }
    match instr_text(at, &i) {
        Some(text) => text,
        None => word_text(word),
    }
}
