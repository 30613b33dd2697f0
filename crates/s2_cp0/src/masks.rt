//! The bits that the registers of coprocessor 0 keep, and those that MTC0 writes where they are fewer.
//!
//! Source: MIPS R2000, the registers of the system control coprocessor; that every other bit reads 0 is
//! this project's own. The masks of EntryHi and EntryLo are those of an entry of the translation lookaside
//! buffer and stand in `s2_base`.

/// Index: P, bit 31, and the number of an entry, bits 13 to 8. MTC0 writes the same.
pub const INDEX_BITS: u32 = 0x8000_3F00;
/// Context: PTEBase, bits 31 to 21, and BadVPN, bits 20 to 2.
pub const CONTEXT_BITS: u32 = 0xFFFF_FFFC;
/// The bits of Context that MTC0 writes: PTEBase.
pub const CONTEXT_WRITTEN: u32 = 0xFFE0_0000;
/// Status: CU0, bit 28; BEV, bit 22; SwC and IsC, bits 17 and 16; IM, bits 15 to 8; and KUo, IEo, KUp, IEp,
/// KUc and IEc, bits 5 to 0. MTC0 writes the same.
pub const STATUS_BITS: u32 = 0x1043_FF3F;
/// Cause: BD, bit 31; CE, bits 29 and 28; Sw, bits 9 and 8; and ExcCode, bits 5 to 2.
pub const CAUSE_BITS: u32 = 0xB000_033C;
/// The bits of Cause that MTC0 writes and an exception leaves: Sw.
pub const CAUSE_WRITTEN: u32 = 0x0000_0300;

/// The interrupts: IP in Cause and IM in Status, bits 15 to 8.
pub const INTERRUPT_BITS: u32 = 0x0000_FF00;
/// P of Index alone, bit 31: what TLBP leaves where no entry matches.
pub const NO_ENTRY: u32 = 0x8000_0000;
/// BD of Cause alone, bit 31: the exception came in a delay slot.
pub const BRANCH_DELAY: u32 = 0x8000_0000;
/// What PRId reads (this project's own).
pub const PROCESSOR_ID: u32 = 0x0000_0100;
