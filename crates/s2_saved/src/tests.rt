//! All saved words of a processor.

use crate::{copy_state, load_word, save_word};
use s2_cp0::KeptRegister;
use s2_cpu::Cpu;
use std::test::Fail;

/// The bits that the part of a word keeps, by the table of saved words.
fn mask(k: u8) -> u32 {
    match k {
        0 => 0,
        36 => 0x0000_037D,
        38 => 0x1043_FF3F,
        39 => 0xB000_033C,
        42 => 0xFFFF_FFC0,
        43 => 0xFFFF_FF00,
        44 => 0x8000_3F00,
        45 => 0xFFFF_FFFC,
        _ => {
            if k < 48 {
                0xFFFF_FFFF
            } else if k % 2 == 0 {
                0xFFFF_FFC0
            } else {
                0xFFFF_FF00
            }
        }
    }
}

/// A word for each number, with all of the upper bits set.
fn pattern(k: u8) -> u32 {
    0xFFFF_FF00 | u32::from(k)
}

#[test]
fn all_176_words_are_saved_as_they_were_loaded(rt: HostRuntime) -> Result<(), Fail> {
    let mut cpu = Cpu::start(0x8000_1000);
    for k in 0..176u8 {
        load_word(&mut cpu, k, pattern(k));
    }
    for k in 0..176u8 {
        assert_eq!(rt; save_word(&cpu, k), pattern(k) & mask(k), "word {k}");
    }
    let mut other = Cpu::start(0);
    copy_state(&cpu, &mut other);
    for k in 0..176u8 {
        assert_eq!(rt; save_word(&other, k), pattern(k) & mask(k), "word {k}");
    }
    Ok(())
}

#[test]
fn each_part_is_where_the_table_says(rt: HostRuntime) -> Result<(), Fail> {
    let mut cpu = Cpu::start(0x8000_1000);
    for k in 0..176u8 {
        load_word(&mut cpu, k, pattern(k));
    }
    load_word(&mut cpu, 36, 0x0000_0255);
    assert_eq!(rt; cpu.r.get(31), 0xFFFF_FF1F);
    assert_eq!(rt; (cpu.hi, cpu.lo), (0xFFFF_FF20, 0xFFFF_FF21));
    assert_eq!(rt; (cpu.pc, cpu.npc), (0xFFFF_FF22, 0xFFFF_FF23));
    assert_eq!(rt; (cpu.slot, cpu.load_reg, cpu.lines), (true, 21, 2));
    assert_eq!(rt; cpu.load_value, 0xFFFF_FF25);
    assert_eq!(rt; cpu.cp0.word(KeptRegister::Status), 0x1043_FF26);
    assert_eq!(rt; cpu.cp0.word(KeptRegister::Cause), 0xB000_0324);
    assert_eq!(rt; cpu.cp0.word(KeptRegister::Epc), 0xFFFF_FF28);
    assert_eq!(rt; cpu.cp0.word(KeptRegister::BadVAddr), 0xFFFF_FF29);
    assert_eq!(rt; cpu.cp0.word(KeptRegister::EntryHi), 0xFFFF_FF00);
    assert_eq!(rt; cpu.cp0.word(KeptRegister::EntryLo), 0xFFFF_FF00);
    assert_eq!(rt; cpu.cp0.word(KeptRegister::Index), 0x8000_3F00);
    assert_eq!(rt; cpu.cp0.word(KeptRegister::Context), 0xFFFF_FF2C);
    assert_eq!(rt; cpu.run, 0xFFFF_FF2E_FFFF_FF2F);
    assert_eq!(rt; cpu.tlb.read(63), (0xFFFF_FF80, 0xFFFF_FF00));
    Ok(())
}
