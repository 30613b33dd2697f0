//! The numbers of the saved words, and the bits of the flags.
//!
//! Source: this project's own (`docs/MACHINE.md`). Words 0 to 31 are the general registers.

use s2_cpu::REGISTERS;
use s2_join::SAVED_WORDS;
use s2_tlb::TLB_ENTRIES;

/// HI, the first of the words of control.
pub const HI_WORD: u8 = 32;
/// LO.
pub const LO_WORD: u8 = 33;
/// The virtual address of the next cycle's instruction.
pub const PC_WORD: u8 = 34;
/// The virtual address of the instruction after that one.
pub const NPC_WORD: u8 = 35;
/// The flags: whether the next cycle's instruction stands in a delay slot, the register that the pending
/// load takes, and the interrupt lines.
pub const FLAGS_WORD: u8 = 36;
/// The word that the pending load takes.
pub const LOAD_VALUE_WORD: u8 = 37;
/// Status.
pub const STATUS_WORD: u8 = 38;
/// Cause, without the interrupt lines.
pub const CAUSE_WORD: u8 = 39;
/// EPC.
pub const EPC_WORD: u8 = 40;
/// BadVAddr.
pub const BAD_VADDR_WORD: u8 = 41;
/// EntryHi.
pub const ENTRY_HI_WORD: u8 = 42;
/// EntryLo.
pub const ENTRY_LO_WORD: u8 = 43;
/// Index.
pub const INDEX_WORD: u8 = 44;
/// Context.
pub const CONTEXT_WORD: u8 = 45;
/// The upper 32 bits of the run count.
pub const RUN_HIGH_WORD: u8 = 46;
/// The lower 32 bits of the run count, the last of the words of control.
pub const RUN_LOW_WORD: u8 = 47;
/// hi of entry 0 of the translation lookaside buffer. The two words of entry j have the numbers
/// `FIRST_ENTRY_WORD` + 2j and the one after it.
pub const FIRST_ENTRY_WORD: u8 = 48;

const _: () = prove!(REGISTERS == HI_WORD as usize);

const _: () = prove!(FIRST_ENTRY_WORD as usize + 2 * TLB_ENTRIES == SAVED_WORDS as usize);

/// The bits that the flags keep: bit 0, bits 6 to 2, and bits 9 and 8.
pub const FLAGS_BITS: u32 = 0x0000_037D;
/// The place value of the pending load's register in the flags.
pub const LOAD_REG_UNIT: u32 = 4;
/// The place value of the interrupt lines in the flags.
pub const LINES_UNIT: u32 = 256;
/// How many states the two interrupt lines have together.
pub const LINES_STATES: u32 = 4;
/// The place value of the upper word of the run count.
pub const RUN_HIGH_UNIT: u64 = 0x1_0000_0000;
