//! The fields of an entry, which is a pair of words: one as the register EntryHi holds it, and one as the
//! register EntryLo does.
//!
//! Source: MIPS R2000, EntryHi and EntryLo.

/// How many entries the buffer has.
pub const TLB_ENTRIES: usize = 64;

/// How many bytes a page has: an address modulo this is the offset in its page, and an address or a word of
/// an entry divided by this is the number of a page or of a page frame.
pub const PAGE_BYTES: u32 = 4096;

/// How many address spaces there are: the number of one, the ASID, is below this.
pub const ADDRESS_SPACES: u32 = 64;

/// The place value of the ASID in EntryHi.
pub const ASID_UNIT: u32 = 0x0000_0040;

/// N of EntryLo: the page is not cached, which makes no difference in this machine.
pub const UNCACHED: u32 = 0x0000_0800;

/// D of EntryLo: stores to the page are allowed.
pub const DIRTY: u32 = 0x0000_0400;

/// V of EntryLo: the entry is valid.
pub const VALID: u32 = 0x0000_0200;

/// G of EntryLo: the entry serves every address space.
pub const GLOBAL: u32 = 0x0000_0100;
