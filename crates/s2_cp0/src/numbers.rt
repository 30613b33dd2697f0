//! The numbers by which MFC0 and MTC0 name the registers of coprocessor 0.
//!
//! Source: MIPS R2000, the registers of the system control coprocessor.

/// The entry of the translation lookaside buffer that TLBR reads and TLBWI writes.
pub const INDEX: u8 = 0;
/// The entry that TLBWR writes.
pub const RANDOM: u8 = 1;
/// The lower word of an entry.
pub const ENTRY_LO: u8 = 2;
/// The place of a page's entry in the table of pages.
pub const CONTEXT: u8 = 4;
/// The address of an exception.
pub const BAD_VADDR: u8 = 8;
/// The upper word of an entry, with the number of the present address space.
pub const ENTRY_HI: u8 = 10;
/// The modes, the interrupts' masks and the usable coprocessors.
pub const STATUS: u8 = 12;
/// What the last exception was, and which interrupts are up.
pub const CAUSE: u8 = 13;
/// Where the last exception returns to.
pub const EPC: u8 = 14;
/// Which processor this is.
pub const PRID: u8 = 15;

/// Random at run count 0: the last entry (this project's own).
pub const RANDOM_START: u64 = 63;
/// After how many run cycles Random starts again; so it leaves entries 0 to 7 out (this project's own).
pub const RANDOM_PERIOD: u64 = 56;
