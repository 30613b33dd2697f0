//! The bits that an entry of the translation lookaside buffer keeps. The two registers of coprocessor 0
//! through which an entry is read and written keep the same.
//!
//! Source: MIPS R2000, EntryHi and EntryLo; that the other bits read 0 is this project's own.

/// EntryHi: the virtual page number, bits 31 to 12, and the address space's number, bits 11 to 6.
pub const ENTRY_HI_BITS: u32 = 0xFFFF_FFC0;
/// EntryLo: the page frame number, bits 31 to 12, and N, D, V and G, bits 11 to 8.
pub const ENTRY_LO_BITS: u32 = 0xFFFF_FF00;
