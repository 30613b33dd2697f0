//! Texts that are assembled, and words that are listed. Words of instructions are those of GNU as.

use crate::{AsmFail, AsmFault, assemble, disassemble, list, listed_file};
use s2_elf::{Image, read_elf};
use s2_program::{Program, to_elf};
use std::alloc::Global;

/// Lines, and the word that each gives at 0x80010000.
#[rattlefmt::skip]
static LINES: [(&[u8], u32); 76] = [
    (b"add r1, r2, r31", 0x005F_0820),
    (b"addu r1, r2, r31", 0x005F_0821),
    (b"sub r1, r2, r31", 0x005F_0822),
    (b"subu r1, r2, r31", 0x005F_0823),
    (b"and r1, r2, r31", 0x005F_0824),
    (b"or r1, r2, r31", 0x005F_0825),
    (b"xor r1, r2, r31", 0x005F_0826),
    (b"nor r1, r2, r31", 0x005F_0827),
    (b"slt r1, r2, r31", 0x005F_082A),
    (b"sltu r1, r2, r31", 0x005F_082B),
    (b"sllv r3, r4, r2", 0x0044_1804),
    (b"srlv r3, r4, r2", 0x0044_1806),
    (b"srav r3, r4, r2", 0x0044_1807),
    (b"sll r1, r31, 31", 0x001F_0FC0),
    (b"srl r1, r31, 31", 0x001F_0FC2),
    (b"sra r1, r31, 31", 0x001F_0FC3),
    (b"sll r0, r0, 0", 0x0000_0000),
    (b"addi r1, r31, -32768", 0x23E1_8000),
    (b"addiu r1, r31, -32768", 0x27E1_8000),
    (b"slti r1, r31, -32768", 0x2BE1_8000),
    (b"sltiu r1, r31, -32768", 0x2FE1_8000),
    (b"addiu r31, r0, 32767", 0x241F_7FFF),
    (b"addiu r1, r2, -1", 0x2441_FFFF),
    (b"addiu r1, r2, 0", 0x2441_0000),
    (b"andi r1, r31, 65535", 0x33E1_FFFF),
    (b"ori r1, r31, 65535", 0x37E1_FFFF),
    (b"xori r1, r31, 65535", 0x3BE1_FFFF),
    (b"ori r0, r0, 0", 0x3400_0000),
    (b"lui r8, 48896", 0x3C08_BF00),
    (b"lui r31, 65535", 0x3C1F_FFFF),
    (b"mult r2, r31", 0x005F_0018),
    (b"multu r2, r31", 0x005F_0019),
    (b"div r2, r31", 0x005F_001A),
    (b"divu r2, r31", 0x005F_001B),
    (b"mfhi r31", 0x0000_F810),
    (b"mflo r31", 0x0000_F812),
    (b"mthi r31", 0x03E0_0011),
    (b"mtlo r31", 0x03E0_0013),
    (b"j 0x80010000", 0x0800_4000),
    (b"jal 0x8ffffffc", 0x0FFF_FFFF),
    (b"j 0x80000000", 0x0800_0000),
    (b"jr r31", 0x03E0_0008),
    (b"jalr r31, r2", 0x0040_F809),
    (b"beq r1, r31, 0x80010004", 0x103F_0000),
    (b"bne r1, r31, 0x80010000", 0x143F_FFFF),
    (b"blez r30, 0x80010008", 0x1BC0_0001),
    (b"bgtz r30, 0x80010008", 0x1FC0_0001),
    (b"bltz r30, 0x80010008", 0x07C0_0001),
    (b"bgez r30, 0x80010008", 0x07C1_0001),
    (b"bltzal r30, 0x80010008", 0x07D0_0001),
    (b"bgezal r30, 0x80010008", 0x07D1_0001),
    (b"beq r0, r0, 0x80030000", 0x1000_7FFF),
    (b"beq r0, r0, 0x7fff0004", 0x1000_8000),
    (b"lb r1, -4(r31)", 0x83E1_FFFC),
    (b"lh r1, -4(r31)", 0x87E1_FFFC),
    (b"lwl r1, -4(r31)", 0x8BE1_FFFC),
    (b"lw r1, -4(r31)", 0x8FE1_FFFC),
    (b"lbu r1, -4(r31)", 0x93E1_FFFC),
    (b"lhu r1, -4(r31)", 0x97E1_FFFC),
    (b"lwr r1, -4(r31)", 0x9BE1_FFFC),
    (b"sb r1, -4(r31)", 0xA3E1_FFFC),
    (b"sh r1, -4(r31)", 0xA7E1_FFFC),
    (b"swl r1, -4(r31)", 0xABE1_FFFC),
    (b"sw r1, -4(r31)", 0xAFE1_FFFC),
    (b"swr r1, -4(r31)", 0xBBE1_FFFC),
    (b"lw r31, 32767(r0)", 0x8C1F_7FFF),
    (b"sw r0, -32768(r0)", 0xAC00_8000),
    (b"mfc0 r1, 14", 0x4001_7000),
    (b"mtc0 r31, 12", 0x409F_6000),
    (b"syscall", 0x0000_000C),
    (b"break", 0x0000_000D),
    (b"tlbr", 0x4200_0001),
    (b"tlbwi", 0x4200_0002),
    (b"tlbwr", 0x4200_0006),
    (b"tlbp", 0x4200_0008),
    (b"rfe", 0x4200_0010),
];

/// Adds bytes to a text, and answers whether there was room.
fn add(text: &mut Vec<u8>, bytes: &[u8]) -> bool {
    text.extend_from_slice(bytes).is_ok()
}

/// The word of a line at 0x80010000, where it is the one word of the text.
fn word_of(alloc: Global, line: &[u8]) -> Option<u32> {
    let mut text = Vec::new(alloc);
    if !add(&mut text, b".org 0x80010000\n") || !add(&mut text, line) {
        return None;
    }
    match assemble(alloc, text.as_slice()) {
        Ok(program) => match program.parts.first() {
            Some(part) => if part.words().len() == 1 {
                Some(part.words()[0])
            } else {
                None
            },
            None => None,
        },
        Err(_) => None,
    }
}

#[test]
fn each_instruction_gives_its_word_and_is_listed_again(rt: HostRuntime) {
    for (line, word) in &LINES {
        assert_eq!(rt; word_of(rt.alloc(), line), Some(*word));
        assert_eq!(rt; disassemble(0x8001_0000, *word).as_slice(), *line);
    }
}

/// The first fault of a text, if it has one.
fn fault(alloc: Global, text: &[u8]) -> Option<AsmFault> {
    match assemble(alloc, text) {
        Ok(_) => None,
        Err(AsmFail::Fault(fault)) => Some(fault),
        Err(AsmFail::Memory) => None,
    }
}

/// Texts of which the first pass finds a fault, in the order of its tests.
#[rattlefmt::skip]
static FIRST_FAULTS: [(&[u8], AsmFault); 14] = [
    (b".org 0x80010000\nbreak 1", AsmFault::Bad { line: 2, column: 6 }),
    (b"#\n\n.word 0x0", AsmFault::Bad { line: 3, column: 10 }),
    (b".org 0x80010002", AsmFault::Place { line: 1 }),
    (b"beq r0, r0, top", AsmFault::Place { line: 1 }),
    (b"top:\n.org 0x80010000", AsmFault::Place { line: 1 }),
    (b".entry 0x80010000\n.word 0x00000000", AsmFault::Place { line: 2 }),
    (b".org 0xfffffffc\nbreak\nbreak", AsmFault::Place { line: 3 }),
    (b".org 0xfffffffc\nbreak\ntop:", AsmFault::Place { line: 3 }),
    (b".org 0x80010000\ntop:\nbreak\ntop:", AsmFault::Twice { line: 4 }),
    (b".org 0x80010000\ntop:\n.org 0xfffffffc\nbreak\ntop:", AsmFault::Place { line: 5 }),
    (b".org 0x80010000\nj top\ntop", AsmFault::Bad { line: 3, column: 4 }),
    (b".org 0x80010000\nj down\nup:\nup:", AsmFault::Twice { line: 4 }),
    (b".org 0x80010000\nj 0x80010001\n.org 0x00000001", AsmFault::Place { line: 3 }),
    (b"break\n.org 0x80010001", AsmFault::Place { line: 1 }),
];

/// Texts of which the second pass alone finds a fault, and texts at the last places that are reached.
#[rattlefmt::skip]
static LATER_FAULTS: [(&[u8], Option<AsmFault>); 15] = [
    (b".org 0x80010000\nbeq r0, r0, top", Some(AsmFault::Unknown { line: 2 })),
    (b".org 0x80010000\nj top\nj 0x00000000", Some(AsmFault::Unknown { line: 2 })),
    (b".org 0x80010000\nj 0x00000000\nj top", Some(AsmFault::Reach { line: 2 })),
    (b".org 0x80010000\nj 0x80010002", Some(AsmFault::Reach { line: 2 })),
    (b".org 0x80010000\nbltz r1, 0x80010001", Some(AsmFault::Reach { line: 2 })),
    (b".org 0x80010000\nj 0x8ffffffc", None),
    (b".org 0x80010000\nj 0x90000000", Some(AsmFault::Reach { line: 2 })),
    (b".org 0x8ffffffc\nj 0x90000000", None),
    (b".org 0x8ffffffc\nj 0x8ffffffc", Some(AsmFault::Reach { line: 2 })),
    (b".org 0x80010000\nbeq r0, r0, 0x80030000", None),
    (b".org 0x80010000\nbeq r0, r0, 0x80030004", Some(AsmFault::Reach { line: 2 })),
    (b".org 0x80010000\nbeq r0, r0, 0x7fff0004", None),
    (b".org 0x80010000\nbeq r0, r0, 0x7fff0000", Some(AsmFault::Reach { line: 2 })),
    (b".org 0xfffffffc\nj 0x00000000", None),
    (b".org 0xfffffffc\nbgez r1, 0x0001fffc", None),
];

#[test]
fn the_first_fault_by_lines_is_answered_and_the_first_pass_comes_first(rt: HostRuntime) {
    for (text, wanted) in &FIRST_FAULTS {
        assert_eq!(rt; fault(rt.alloc(), text), Some(*wanted));
    }
    for (text, wanted) in &LATER_FAULTS {
        assert_eq!(rt; fault(rt.alloc(), text), *wanted);
    }
}

#[test]
fn a_text_has_at_most_64_parts(rt: HostRuntime) {
    let mut parts = Vec::new(rt.alloc());
    for _ in 0..64 {
        assert_eq!(rt; add(&mut parts, b".org 0x80010000\n"), true);
    }
    assert_eq!(rt; fault(rt.alloc(), parts.as_slice()), None);
    assert_eq!(rt; add(&mut parts, b".org 0x80010001\n"), true);
    assert_eq!(rt;
        fault(rt.alloc(), parts.as_slice()),
        Some(AsmFault::Many { line: 65 })
    );
}

/// The program of a text; of a text with a fault a program of no parts at 0.
fn program(alloc: Global, text: &[u8]) -> Program {
    match assemble(alloc, text) {
        Ok(program) => program,
        Err(_) => Program {
            entry: 0,
            parts: Vec::new(alloc),
        },
    }
}

#[test]
fn the_last_entry_line_counts_and_without_one_the_first_part(rt: HostRuntime) {
    let two = b".entry 0x80010000\n.org 0x80020000\n.entry 0x80030000\n# end";
    assert_eq!(rt; program(rt.alloc(), two).entry, 0x8003_0000);
    assert_eq!(rt;
        program(rt.alloc(), b".org 0x80020000\n.org 0x80010000\n").entry,
        0x8002_0000
    );
    assert_eq!(rt; program(rt.alloc(), b"").entry, 0x8001_0000);
}

/// The bytes of a text's file; none where there is none.
fn file(alloc: Global, text: &[u8]) -> Vec<u8> {
    match assemble(alloc, text) {
        Ok(program) => match to_elf(alloc, &program) {
            Ok(bytes) => bytes,
            Err(_) => Vec::new(alloc),
        },
        Err(_) => Vec::new(alloc),
    }
}

/// The program in memory of a text's file, where the loader takes it.
fn image(alloc: Global, text: &[u8]) -> Option<Image> {
    match assemble(alloc, text) {
        Ok(program) => match to_elf(alloc, &program) {
            Ok(bytes) => match read_elf(alloc, bytes.as_slice()) {
                Ok(image) => Some(image),
                Err(_) => None,
            },
            Err(_) => None,
        },
        Err(_) => None,
    }
}

#[test]
fn labels_stand_for_addresses_before_and_behind_them_and_in_other_parts(rt: HostRuntime) {
    let text =
        b".org 0x80010000\ntop:\nbeq r0, r0, end\nj far\nend:\nbne r1, r2, top\nlast:\n.org 0x80020000\nfar:\nj last";
    match image(rt.alloc(), text) {
        Some(image) => {
            assert_eq!(rt; image.local[0x4000], 0x1000_0001);
            assert_eq!(rt; image.local[0x4001], 0x0800_8000);
            assert_eq!(rt; image.local[0x4002], 0x1422_FFFD);
            assert_eq!(rt; image.local[0x8000], 0x0800_4003);
        }
        None => assert_eq!(rt; true, false),
    }
}

#[test]
fn of_parts_over_one_place_the_later_counts(rt: HostRuntime) {
    let text =
        b".org 0x80010000\n.word 0x00000001\n.word 0x00000002\n.org 0xa0010004\n.word 0x00000003\n.org 0x84000000\n.word 0x00000004";
    match image(rt.alloc(), text) {
        Some(image) => {
            assert_eq!(rt; image.local[0x4000], 1);
            assert_eq!(rt; image.local[0x4001], 3);
            assert_eq!(rt; image.global[0], 4);
            assert_eq!(rt; image.entry, 0x8001_0000);
        }
        None => assert_eq!(rt; true, false),
    }
}

/// A program that writes `hi` and a line feed, and its plain file, byte for byte.
static HELLO: &[u8] =
    b".org 0x80010000\nlui r8, 48896\naddiu r9, r0, 104\nsw r9, 0(r8)\naddiu r9, r0, 105\nsw r9, 0(r8)\naddiu r9, r0, 10\nsw r9, 0(r8)\nsw r0, 20(r8)\n";

#[rattlefmt::skip]
static HELLO_FILE: [u8; 116] = [
    0x7F, 0x45, 0x4C, 0x46, 0x01, 0x02, 0x01, 0x00, 0x00, 0x00, 0x00, 0x00, 0x00, 0x00, 0x00, 0x00,
    0x00, 0x02, 0x00, 0x08, 0x00, 0x00, 0x00, 0x01, 0x80, 0x01, 0x00, 0x00, 0x00, 0x00, 0x00, 0x34,
    0x00, 0x00, 0x00, 0x00, 0x00, 0x00, 0x00, 0x00, 0x00, 0x34, 0x00, 0x20, 0x00, 0x01, 0x00, 0x00,
    0x00, 0x00, 0x00, 0x00,
    0x00, 0x00, 0x00, 0x01, 0x00, 0x00, 0x00, 0x54, 0x80, 0x01, 0x00, 0x00, 0x80, 0x01, 0x00, 0x00,
    0x00, 0x00, 0x00, 0x20, 0x00, 0x00, 0x00, 0x20, 0x00, 0x00, 0x00, 0x07, 0x00, 0x00, 0x00, 0x04,
    0x3C, 0x08, 0xBF, 0x00, 0x24, 0x09, 0x00, 0x68, 0xAD, 0x09, 0x00, 0x00, 0x24, 0x09, 0x00, 0x69,
    0xAD, 0x09, 0x00, 0x00, 0x24, 0x09, 0x00, 0x0A, 0xAD, 0x09, 0x00, 0x00, 0xAD, 0x00, 0x00, 0x14,
];

#[test]
fn a_program_of_eight_instructions_gives_its_file_of_116_bytes(rt: HostRuntime) {
    let bytes = file(rt.alloc(), HELLO);
    assert_eq!(rt; bytes.as_slice(), HELLO_FILE.as_slice());
}

#[test]
fn a_program_that_spins_is_listed_in_three_lines_and_its_listing_gives_it_again(rt: HostRuntime) {
    let text = b".org 0x80010000\n.word 0x08004000\n.word 0x00000000\n";
    let wanted: &[u8] = b".entry 0x80010000\n.org 0x80010000\nj 0x80010000\n";
    match image(rt.alloc(), text) {
        Some(image) => {
            match list(rt.alloc(), &image) {
                Ok(listing) => assert_eq!(rt; listing.as_slice(), wanted),
                Err(_) => assert_eq!(rt; true, false),
            }
            match listed_file(rt.alloc(), &image) {
                Ok(again) => assert_eq!(rt; again.len(), 88),
                Err(_) => assert_eq!(rt; true, false),
            }
        }
        None => assert_eq!(rt; true, false),
    }
}

/// Words at addresses, and their lines: words that no instruction's line gives are listed as they are.
#[rattlefmt::skip]
static LISTED: [(u32, u32, &[u8]); 9] = [
    (0x8001_0000, 0x0000_0000, b"sll r0, r0, 0"),
    (0x8001_0000, 0x0020_0000, b".word 0x00200000"),
    (0x8001_0000, 0x0000_004C, b".word 0x0000004c"),
    (0x8001_0000, 0xC000_0000, b".word 0xc0000000"),
    (0x8001_0000, 0x4400_0000, b".word 0x44000000"),
    (0x8001_0000, 0xFFFF_FFFF, b".word 0xffffffff"),
    (0x8001_0000, 0x1801_0000, b".word 0x18010000"),
    (0xFFFF_FFFC, 0x0800_0000, b"j 0x00000000"),
    (0xFFFF_FFFC, 0x1000_FFFF, b"beq r0, r0, 0xfffffffc"),
];

#[test]
fn words_of_no_line_are_listed_as_words(rt: HostRuntime) {
    for (at, word, line) in &LISTED {
        assert_eq!(rt; disassemble(*at, *word).as_slice(), *line);
    }
}
