//! The saved words of a processor.

ghost use Rattle.s2_join.specs.declared.join.TheConstants.{SAVED_WORDS};
ghost use Rattle.s2_saved.specs.SavedLaws.{IsProcessorState};
ghost use Rattle.s2_saved.specs.SavedWords.{after_control_load, control_words, after_entry_load, entry_words, after_flags_load, flags_word, kept_bits, saved_words, after_word_load};
ghost use Rattle.s2_saved.specs.declared.numbers.TheConstants.{FIRST_ENTRY_WORD, HI_WORD};
ghost use Rattle.std.specs.List.{flat_map};
ghost use Rattle.std.specs.Prelude.{◌≡◌, ◌<◌, ◌≤◌, ◌-◌, slice_index, slice_set};

use crate::laws::load_changes_one_word;
use crate::numbers::{
    BAD_VADDR_WORD, CAUSE_WORD, CONTEXT_WORD, ENTRY_HI_WORD, ENTRY_LO_WORD, EPC_WORD,
    FIRST_ENTRY_WORD, FLAGS_WORD, HI_WORD, INDEX_WORD, LINES_STATES, LINES_UNIT, LO_WORD,
    LOAD_REG_UNIT, LOAD_VALUE_WORD, NPC_WORD, PC_WORD, RUN_HIGH_UNIT, RUN_HIGH_WORD, STATUS_WORD,
};
use s2_cp0::KeptRegister;
use s2_cpu::{Cpu, REGISTERS};
use s2_join::SAVED_WORDS;
use s2_tlb::Tlb;

/// What every processor is, for the laws on saved words. It does nothing.
pub fn processor_state(cpu: &Cpu)
    ensures { IsProcessorState cpu.now }
{
    cpu.r.well_formed();
    cpu.cp0.within_masks();
    cpu.tlb.well_formed();
    cpu.within_ranges();
}

/// The flags.
fn flags(cpu: &Cpu) -> u32
    ensures { result ≡ flags_word cpu.now }
{
    u32::from(cpu.slot)
        + LOAD_REG_UNIT * u32::from(cpu.load_reg)
        + LINES_UNIT * u32::from(cpu.lines)
}

/// The words of control, in their order from `HI_WORD` on.
fn control(cpu: &Cpu) -> [u32; 16]
    ensures { result ≡ control_words cpu.now }
{
    [
        cpu.hi,
        cpu.lo,
        cpu.pc,
        cpu.npc,
        flags(cpu),
        cpu.load_value,
        cpu.cp0.word(KeptRegister::Status),
        cpu.cp0.word(KeptRegister::Cause),
        cpu.cp0.word(KeptRegister::Epc),
        cpu.cp0.word(KeptRegister::BadVAddr),
        cpu.cp0.word(KeptRegister::EntryHi),
        cpu.cp0.word(KeptRegister::EntryLo),
        cpu.cp0.word(KeptRegister::Index),
        cpu.cp0.word(KeptRegister::Context),
        (cpu.run / RUN_HIGH_UNIT) as u32,
        (cpu.run % RUN_HIGH_UNIT) as u32,
    ]
}

/// General register `k`, below 32.
fn general_word(cpu: &Cpu, k: u8) -> u32
    requires { k < HI_WORD }
    ensures { result ≡ slice_index cpu.now.r k }
{
    cpu.r.get(k)
}

/// Word number `k` of control.
fn control_word(cpu: &Cpu, k: u8) -> u32
    requires low { HI_WORD ≤ k }
    requires high { k < FIRST_ENTRY_WORD }
    ensures { result ≡ slice_index (control_words cpu.now) (k - HI_WORD) }
{
    control(cpu)[(k - HI_WORD) as usize]
}

/// Word `n`, below 128, of the entries of a translation lookaside buffer.
fn entry_word(tlb: &Tlb, n: u8) -> u32
    requires { n < SAVED_WORDS - FIRST_ENTRY_WORD }
    ensures { result ≡ slice_index (flat_map entry_words tlb.now) n }
{
    tlb.well_formed();
    let entry = tlb.read(u32::from(n / 2));
    if n % 2 == 0 { entry.0 } else { entry.1 }
}

/// Word number `k` of the translation lookaside buffer.
fn buffer_word(cpu: &Cpu, k: u8) -> u32
    requires low { FIRST_ENTRY_WORD ≤ k }
    requires high { k < SAVED_WORDS }
    ensures { result ≡ slice_index (flat_map entry_words cpu.now.tlb) (k - FIRST_ENTRY_WORD) }
{
    entry_word(&cpu.tlb, k - FIRST_ENTRY_WORD)
}

/// Saved word number `k`, below `SAVED_WORDS`.
///
/// Source: this project's own, the table of saved words (`docs/MACHINE.md`).
pub fn save_word(cpu: &Cpu, k: u8) -> u32
    requires { k < SAVED_WORDS }
    ensures { result ≡ slice_index (saved_words cpu.now) k }
{
    processor_state(cpu);
    if k < HI_WORD {
        general_word(cpu, k)
    } else if k < FIRST_ENTRY_WORD {
        control_word(cpu, k)
    } else {
        buffer_word(cpu, k)
    }
}

/// Loads the flags with a word, of which the bits of the flags count.
fn load_flags(cpu: &mut Cpu, v: u32)
    ensures { cpu.new ≡ after_flags_load cpu.old v }
{
    cpu.slot = v % 2 == 1;
    cpu.load_reg = (v / LOAD_REG_UNIT % REGISTERS as u32) as u8;
    cpu.lines = (v / LINES_UNIT % LINES_STATES) as u8;
}

/// Loads word number `k` of control.
fn load_control(cpu: &mut Cpu, k: u8, v: u32)
    requires low { HI_WORD ≤ k }
    requires high { k < FIRST_ENTRY_WORD }
    ensures { cpu.new ≡ after_control_load cpu.old k v }
{
    match k {
        HI_WORD => cpu.hi = v,
        LO_WORD => cpu.lo = v,
        PC_WORD => cpu.pc = v,
        NPC_WORD => cpu.npc = v,
        FLAGS_WORD => load_flags(cpu, v),
        LOAD_VALUE_WORD => cpu.load_value = v,
        STATUS_WORD => cpu.cp0.load(KeptRegister::Status, v),
        CAUSE_WORD => cpu.cp0.load(KeptRegister::Cause, v),
        EPC_WORD => cpu.cp0.load(KeptRegister::Epc, v),
        BAD_VADDR_WORD => cpu.cp0.load(KeptRegister::BadVAddr, v),
        ENTRY_HI_WORD => cpu.cp0.load(KeptRegister::EntryHi, v),
        ENTRY_LO_WORD => cpu.cp0.load(KeptRegister::EntryLo, v),
        INDEX_WORD => cpu.cp0.load(KeptRegister::Index, v),
        CONTEXT_WORD => cpu.cp0.load(KeptRegister::Context, v),
        RUN_HIGH_WORD => cpu.run = u64::from(v) * RUN_HIGH_UNIT + cpu.run % RUN_HIGH_UNIT,
        _ => cpu.run = cpu.run / RUN_HIGH_UNIT * RUN_HIGH_UNIT + u64::from(v),
    }
}

/// Loads word `n`, below 128, of the entries.
fn load_entry_word(tlb: &mut Tlb, n: u8, v: u32)
    requires { n < SAVED_WORDS - FIRST_ENTRY_WORD }
    ensures { tlb.new ≡ after_entry_load tlb.old n v }
{
    let j = u32::from(n / 2);
    let entry = tlb.read(j);
    if n % 2 == 0 {
        tlb.write(j, v, entry.1);
    } else {
        tlb.write(j, entry.0, v);
    }
}

/// Loads the part of saved word number `k`, below `SAVED_WORDS`: it becomes `v`, restricted to the bits that
/// the part keeps.
fn load_part(cpu: &mut Cpu, k: u8, v: u32)
    requires { k < SAVED_WORDS }
    ensures { cpu.new ≡ after_word_load cpu.old k v }
{
    if k < HI_WORD {
        cpu.r.set(k, v);
    } else if k < FIRST_ENTRY_WORD {
        load_control(cpu, k, v);
    } else {
        load_entry_word(&mut cpu.tlb, k - FIRST_ENTRY_WORD, v);
    }
}

/// Loads saved word number `k`, below `SAVED_WORDS`: its part becomes `v`, restricted to the bits that the
/// part keeps; register 0 stays 0. Every other saved word stays as it is.
///
/// Source: this project's own, the table of saved words (`docs/MACHINE.md`).
pub fn load_word(cpu: &mut Cpu, k: u8, v: u32)
    requires { k < SAVED_WORDS }
    ensures processor { cpu.new ≡ after_word_load cpu.old k v }
    ensures words { saved_words cpu.new ≡ slice_set (saved_words cpu.old) k (kept_bits k v) }
{
    processor_state(cpu);
    load_changes_one_word();
    load_part(cpu, k, v);
}

/// Loads all saved words of `from` into `to`, which is then equal to it.
pub fn copy_state(from: &Cpu, to: &mut Cpu)
    ensures { to.new ≡ from.now }
{
    processor_state(from);
    processor_state(to);
    for k in 0..SAVED_WORDS {
        let word = save_word(from, k);
        load_part(to, k, word);
    }
}
