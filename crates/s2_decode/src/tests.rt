//! Words of an assembler beside their instructions.
//!
//! The words come from GNU as 2.40 (`mips-linux-gnu-as -EB -march=mips1 -mips1 -O0`, with `.set
//! noreorder`, `noat` and `nomacro`), read back by objdump; those of later levels of the instruction set
//! were assembled under `.set mips2` to `mips32r2`. The instructions are the operands of the source
//! lines.

use crate::{Instr, Op3, OpB, OpD, OpI, OpM, OpS, decode, encode, proper, unit};

/// Each row of the table, with 0 in the fields that it does not use, and words that are kept whole.
#[rattlefmt::skip]
static ROWS: [(u32, Instr); 119] = [
    (0x0011_1940, Instr::Shift { op: OpS::Sll, rd: 3, rt: 17, sa: 5 }),
    (0x0000_0000, Instr::Shift { op: OpS::Sll, rd: 0, rt: 0, sa: 0 }),
    (0x0001_FFC2, Instr::Shift { op: OpS::Srl, rd: 31, rt: 1, sa: 31 }),
    (0x001E_4043, Instr::Shift { op: OpS::Sra, rd: 8, rt: 30, sa: 1 }),
    (0x00C5_2004, Instr::Three { op: Op3::Sllv, rd: 4, rs: 6, rt: 5 }),
    (0x0128_3806, Instr::Three { op: Op3::Srlv, rd: 7, rs: 9, rt: 8 }),
    (0x018B_5007, Instr::Three { op: Op3::Srav, rd: 10, rs: 12, rt: 11 }),
    (0x03E0_0008, Instr::JumpReg { rs: 31 }),
    (0x0040_0008, Instr::JumpReg { rs: 2 }),
    (0x0320_F809, Instr::JumpLinkReg { rd: 31, rs: 25 }),
    (0x0120_2809, Instr::JumpLinkReg { rd: 5, rs: 9 }),
    (0x0000_000C, Instr::Syscall),
    (0x0000_000D, Instr::Break),
    (0x0000_6010, Instr::MoveFrom { hi: true, rd: 12 }),
    (0x01A0_0011, Instr::MoveTo { hi: true, rs: 13 }),
    (0x0000_7012, Instr::MoveFrom { hi: false, rd: 14 }),
    (0x01E0_0013, Instr::MoveTo { hi: false, rs: 15 }),
    (0x0211_0018, Instr::MulDiv { op: OpD::Mult, rs: 16, rt: 17 }),
    (0x0253_0019, Instr::MulDiv { op: OpD::Multu, rs: 18, rt: 19 }),
    (0x0295_001A, Instr::MulDiv { op: OpD::Div, rs: 20, rt: 21 }),
    (0x02D7_001B, Instr::MulDiv { op: OpD::Divu, rs: 22, rt: 23 }),
    (0x033A_C020, Instr::Three { op: Op3::Add, rd: 24, rs: 25, rt: 26 }),
    (0x039D_D821, Instr::Three { op: Op3::Addu, rd: 27, rs: 28, rt: 29 }),
    (0x03E1_F022, Instr::Three { op: Op3::Sub, rd: 30, rs: 31, rt: 1 }),
    (0x0064_1023, Instr::Three { op: Op3::Subu, rd: 2, rs: 3, rt: 4 }),
    (0x00C7_2824, Instr::Three { op: Op3::And, rd: 5, rs: 6, rt: 7 }),
    (0x012A_4025, Instr::Three { op: Op3::Or, rd: 8, rs: 9, rt: 10 }),
    (0x018D_5826, Instr::Three { op: Op3::Xor, rd: 11, rs: 12, rt: 13 }),
    (0x01F0_7027, Instr::Three { op: Op3::Nor, rd: 14, rs: 15, rt: 16 }),
    (0x0253_882A, Instr::Three { op: Op3::Slt, rd: 17, rs: 18, rt: 19 }),
    (0x02B6_A02B, Instr::Three { op: Op3::Sltu, rd: 20, rs: 21, rt: 22 }),
    (0x06E0_7FFF, Instr::Branch { op: OpB::Bltz, rs: 23, rt: 0, off: 0x7FFF }),
    (0x0701_8000, Instr::Branch { op: OpB::Bgez, rs: 24, rt: 0, off: 0x8000 }),
    (0x0730_1234, Instr::Branch { op: OpB::Bltzal, rs: 25, rt: 0, off: 0x1234 }),
    (0x0751_FFFF, Instr::Branch { op: OpB::Bgezal, rs: 26, rt: 0, off: 0xFFFF }),
    (0x0800_0000, Instr::Jump { link: false, target: 0x0000000 }),
    (0x0BFF_FFFF, Instr::Jump { link: false, target: 0x3FFFFFF }),
    (0x0C8D_159E, Instr::Jump { link: true, target: 0x08D159E }),
    (0x137C_0001, Instr::Branch { op: OpB::Beq, rs: 27, rt: 28, off: 0x0001 }),
    (0x17BE_FFFE, Instr::Branch { op: OpB::Bne, rs: 29, rt: 30, off: 0xFFFE }),
    (0x1BE0_0040, Instr::Branch { op: OpB::Blez, rs: 31, rt: 0, off: 0x0040 }),
    (0x1C20_0080, Instr::Branch { op: OpB::Bgtz, rs: 1, rt: 0, off: 0x0080 }),
    (0x2062_FFFF, Instr::Imm { op: OpI::Addi, rt: 2, rs: 3, imm: 0xFFFF }),
    (0x24A4_7FFF, Instr::Imm { op: OpI::Addiu, rt: 4, rs: 5, imm: 0x7FFF }),
    (0x28E6_8000, Instr::Imm { op: OpI::Slti, rt: 6, rs: 7, imm: 0x8000 }),
    (0x2D28_0001, Instr::Imm { op: OpI::Sltiu, rt: 8, rs: 9, imm: 0x0001 }),
    (0x316A_FFFF, Instr::Imm { op: OpI::Andi, rt: 10, rs: 11, imm: 0xFFFF }),
    (0x35AC_8000, Instr::Imm { op: OpI::Ori, rt: 12, rs: 13, imm: 0x8000 }),
    (0x39EE_1234, Instr::Imm { op: OpI::Xori, rt: 14, rs: 15, imm: 0x1234 }),
    (0x3C10_BFC0, Instr::Lui { rt: 16, imm: 0xBFC0 }),
    (0x4011_6000, Instr::Mfc0 { rt: 17, rd: 12 }),
    (0x4092_7000, Instr::Mtc0 { rt: 18, rd: 14 }),
    (0x4200_0001, Instr::Tlbr),
    (0x4200_0002, Instr::Tlbwi),
    (0x4200_0006, Instr::Tlbwr),
    (0x4200_0008, Instr::Tlbp),
    (0x4200_0010, Instr::Rfe),
    (0x8293_FFFF, Instr::Memory { op: OpM::Lb, rt: 19, base: 20, off: 0xFFFF }),
    (0x86D5_0002, Instr::Memory { op: OpM::Lh, rt: 21, base: 22, off: 0x0002 }),
    (0x8B17_0003, Instr::Memory { op: OpM::Lwl, rt: 23, base: 24, off: 0x0003 }),
    (0x8F59_7FFF, Instr::Memory { op: OpM::Lw, rt: 25, base: 26, off: 0x7FFF }),
    (0x939B_8000, Instr::Memory { op: OpM::Lbu, rt: 27, base: 28, off: 0x8000 }),
    (0x97DD_0102, Instr::Memory { op: OpM::Lhu, rt: 29, base: 30, off: 0x0102 }),
    (0x983F_0005, Instr::Memory { op: OpM::Lwr, rt: 31, base: 1, off: 0x0005 }),
    (0xA062_0006, Instr::Memory { op: OpM::Sb, rt: 2, base: 3, off: 0x0006 }),
    (0xA4A4_0008, Instr::Memory { op: OpM::Sh, rt: 4, base: 5, off: 0x0008 }),
    (0xA8E6_0009, Instr::Memory { op: OpM::Swl, rt: 6, base: 7, off: 0x0009 }),
    (0xAD28_FFFC, Instr::Memory { op: OpM::Sw, rt: 8, base: 9, off: 0xFFFC }),
    (0xB96A_000B, Instr::Memory { op: OpM::Swr, rt: 10, base: 11, off: 0x000B }),
    (0xC4A4_0008, Instr::Foreign { unit: 1, word: 0xC4A4_0008 }), // LWC1
    (0xE4E6_000C, Instr::Foreign { unit: 1, word: 0xE4E6_000C }), // SWC1
    (0xC928_0010, Instr::Foreign { unit: 2, word: 0xC928_0010 }), // LWC2
    (0xE96A_0014, Instr::Foreign { unit: 2, word: 0xE96A_0014 }), // SWC2
    (0xCDAC_0018, Instr::Foreign { unit: 3, word: 0xCDAC_0018 }), // LWC3
    (0xEDEE_001C, Instr::Foreign { unit: 3, word: 0xEDEE_001C }), // SWC3
    (0x4606_2080, Instr::Foreign { unit: 1, word: 0x4606_2080 }), // ADD.S
    (0x4403_4000, Instr::Foreign { unit: 1, word: 0x4403_4000 }), // MFC1
    (0x4484_5000, Instr::Foreign { unit: 1, word: 0x4484_5000 }), // MTC1
    (0x44C5_F800, Instr::Foreign { unit: 1, word: 0x44C5_F800 }), // CTC1
    (0x4501_0004, Instr::Foreign { unit: 1, word: 0x4501_0004 }), // BC1T
    (0x4806_3800, Instr::Foreign { unit: 2, word: 0x4806_3800 }), // MFC2
    (0x4A00_1234, Instr::Foreign { unit: 2, word: 0x4A00_1234 }), // C2
    (0x4C08_4800, Instr::Foreign { unit: 3, word: 0x4C08_4800 }), // MFC3
    (0x4E00_5678, Instr::Foreign { unit: 3, word: 0x4E00_5678 }), // C3
    (0xCD24_0008, Instr::Foreign { unit: 3, word: 0xCD24_0008 }), // PREF
    (0x4100_0002, Instr::Reserved(0x4100_0002)), // BC0F
    (0x4101_FFFD, Instr::Reserved(0x4101_FFFD)), // BC0T
    (0x5211_0001, Instr::Reserved(0x5211_0001)), // BEQL
    (0x0642_0001, Instr::Reserved(0x0642_0001)), // BLTZL
    (0x5A80_0001, Instr::Reserved(0x5A80_0001)), // BLEZL
    (0x02B6_0034, Instr::Reserved(0x02B6_0034)), // TEQ
    (0x06E8_0007, Instr::Reserved(0x06E8_0007)), // TGEI
    (0x0000_000F, Instr::Reserved(0x0000_000F)), // SYNC
    (0xC338_0004, Instr::Reserved(0xC338_0004)), // LL, and LWC0
    (0xE37A_0008, Instr::Reserved(0xE37A_0008)), // SC, and SWC0
    (0xD440_0008, Instr::Reserved(0xD440_0008)), // LDC1
    (0xF462_0010, Instr::Reserved(0xF462_0010)), // SDC1
    (0x0085_182C, Instr::Reserved(0x0085_182C)), // DADD
    (0x64E6_0008, Instr::Reserved(0x64E6_0008)), // DADDIU
    (0x0009_42B8, Instr::Reserved(0x0009_42B8)), // DSLL
    (0xDD6A_0008, Instr::Reserved(0xDD6A_0008)), // LD
    (0xFDAC_0010, Instr::Reserved(0xFDAC_0010)), // SD
    (0x9DEE_0004, Instr::Reserved(0x9DEE_0004)), // LWU
    (0x6A30_0001, Instr::Reserved(0x6A30_0001)), // LDL
    (0xB672_0002, Instr::Reserved(0xB672_0002)), // SDR
    (0x4200_0018, Instr::Reserved(0x4200_0018)), // ERET
    (0x4034_6000, Instr::Reserved(0x4034_6000)), // DMFC0
    (0xBEA5_0008, Instr::Reserved(0xBEA5_0008)), // CACHE
    (0xD2F6_0008, Instr::Reserved(0xD2F6_0008)), // LLD
    (0x0085_180A, Instr::Reserved(0x0085_180A)), // MOVZ
    (0x00E8_300B, Instr::Reserved(0x00E8_300B)), // MOVN
    (0x714B_0000, Instr::Reserved(0x714B_0000)), // MADD
    (0x71AE_6002, Instr::Reserved(0x71AE_6002)), // MUL
    (0x720F_7820, Instr::Reserved(0x720F_7820)), // CLZ
    (0x4200_0020, Instr::Reserved(0x4200_0020)), // WAIT
    (0x4200_001F, Instr::Reserved(0x4200_001F)), // DERET
    (0x7C15_A420, Instr::Reserved(0x7C15_A420)), // SEB
    (0x4160_6000, Instr::Reserved(0x4160_6000)), // DI
    (0x06DF_0004, Instr::Reserved(0x06DF_0004)), // SYNCI
];

/// Words of the rows with each field that a row does not use set to ones, and a ROTR of a later level,
/// which is an SRL to this machine.
#[rattlefmt::skip]
static FILLED: [(u32, Instr); 39] = [
    (0x03F1_1940, Instr::Shift { op: OpS::Sll, rd: 3, rt: 17, sa: 5 }),
    (0x03E1_FFC2, Instr::Shift { op: OpS::Srl, rd: 31, rt: 1, sa: 31 }),
    (0x03FE_4043, Instr::Shift { op: OpS::Sra, rd: 8, rt: 30, sa: 1 }),
    (0x00C5_27C4, Instr::Three { op: Op3::Sllv, rd: 4, rs: 6, rt: 5 }),
    (0x0128_3FC6, Instr::Three { op: Op3::Srlv, rd: 7, rs: 9, rt: 8 }),
    (0x018B_57C7, Instr::Three { op: Op3::Srav, rd: 10, rs: 12, rt: 11 }),
    (0x03FF_FFC8, Instr::JumpReg { rs: 31 }),
    (0x033F_FFC9, Instr::JumpLinkReg { rd: 31, rs: 25 }),
    (0x03FF_FFCC, Instr::Syscall),
    (0x03FF_FFCD, Instr::Break),
    (0x03FF_67D0, Instr::MoveFrom { hi: true, rd: 12 }),
    (0x01BF_FFD1, Instr::MoveTo { hi: true, rs: 13 }),
    (0x03FF_77D2, Instr::MoveFrom { hi: false, rd: 14 }),
    (0x01FF_FFD3, Instr::MoveTo { hi: false, rs: 15 }),
    (0x0211_FFD8, Instr::MulDiv { op: OpD::Mult, rs: 16, rt: 17 }),
    (0x0253_FFD9, Instr::MulDiv { op: OpD::Multu, rs: 18, rt: 19 }),
    (0x0295_FFDA, Instr::MulDiv { op: OpD::Div, rs: 20, rt: 21 }),
    (0x02D7_FFDB, Instr::MulDiv { op: OpD::Divu, rs: 22, rt: 23 }),
    (0x033A_C7E0, Instr::Three { op: Op3::Add, rd: 24, rs: 25, rt: 26 }),
    (0x039D_DFE1, Instr::Three { op: Op3::Addu, rd: 27, rs: 28, rt: 29 }),
    (0x03E1_F7E2, Instr::Three { op: Op3::Sub, rd: 30, rs: 31, rt: 1 }),
    (0x0064_17E3, Instr::Three { op: Op3::Subu, rd: 2, rs: 3, rt: 4 }),
    (0x00C7_2FE4, Instr::Three { op: Op3::And, rd: 5, rs: 6, rt: 7 }),
    (0x012A_47E5, Instr::Three { op: Op3::Or, rd: 8, rs: 9, rt: 10 }),
    (0x018D_5FE6, Instr::Three { op: Op3::Xor, rd: 11, rs: 12, rt: 13 }),
    (0x01F0_77E7, Instr::Three { op: Op3::Nor, rd: 14, rs: 15, rt: 16 }),
    (0x0253_8FEA, Instr::Three { op: Op3::Slt, rd: 17, rs: 18, rt: 19 }),
    (0x02B6_A7EB, Instr::Three { op: Op3::Sltu, rd: 20, rs: 21, rt: 22 }),
    (0x1BFF_0040, Instr::Branch { op: OpB::Blez, rs: 31, rt: 0, off: 0x0040 }),
    (0x1C3F_0080, Instr::Branch { op: OpB::Bgtz, rs: 1, rt: 0, off: 0x0080 }),
    (0x3FF0_BFC0, Instr::Lui { rt: 16, imm: 0xBFC0 }),
    (0x4011_67FF, Instr::Mfc0 { rt: 17, rd: 12 }),
    (0x4092_77FF, Instr::Mtc0 { rt: 18, rd: 14 }),
    (0x43FF_FFC1, Instr::Tlbr),
    (0x43FF_FFC2, Instr::Tlbwi),
    (0x43FF_FFC6, Instr::Tlbwr),
    (0x43FF_FFC8, Instr::Tlbp),
    (0x43FF_FFD0, Instr::Rfe),
    (0x0032_8CC2, Instr::Shift { op: OpS::Srl, rd: 17, rt: 18, sa: 19 }),
];

#[test]
fn words_of_an_assembler_decode_and_encode(rt: HostRuntime) {
    for (word, instr) in &ROWS {
        assert_eq!(rt; decode(*word), *instr, "decode {word:08X}");
        assert!(rt; proper(instr), "proper {word:08X}");
        assert_eq!(rt; encode(instr), *word, "encode {word:08X}");
    }
}

#[test]
fn unused_fields_are_ignored_and_left_out(rt: HostRuntime) {
    for (word, instr) in &FILLED {
        let decoded = decode(*word);
        assert_eq!(rt; decoded, *instr, "decode {word:08X}");
        assert!(rt; encode(&decoded) < *word, "encode {word:08X}");
    }
}

#[test]
fn a_word_needs_its_coprocessor(rt: HostRuntime) {
    for (word, number) in [
        (0x4011_6000, Some(0)),
        (0x4200_0010, Some(0)),
        (0x4200_0018, Some(0)),
        (0xC338_0004, Some(0)),
        (0xE37A_0008, Some(0)),
        (0x4606_2080, Some(1)),
        (0xE96A_0014, Some(2)),
        (0xCD24_0008, Some(3)),
        (0x033A_C020, None),
        (0x0000_000F, None),
    ] {
        assert_eq!(rt; unit(&decode(word)), number, "unit of {word:08X}");
    }
}

#[test]
fn an_instruction_that_no_word_has_is_not_proper(rt: HostRuntime) {
    for instr in [
        Instr::Three {
            op: Op3::Add,
            rd: 32,
            rs: 0,
            rt: 0,
        },
        Instr::Branch {
            op: OpB::Blez,
            rs: 1,
            rt: 1,
            off: 0,
        },
        Instr::Jump {
            link: true,
            target: 0x0400_0000,
        },
        Instr::Foreign {
            unit: 2,
            word: 0xC4A4_0008,
        },
        Instr::Reserved(0x033A_C020),
    ] {
        assert!(rt; !proper(&instr), "{instr:?}");
    }
}
