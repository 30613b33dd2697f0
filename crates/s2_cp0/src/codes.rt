//! The exceptions, by ExcCode of Cause.
//!
//! Source: MIPS R2000, the exceptions.

/// An interrupt.
pub const INT: u8 = 0;
/// A store to a page that may not be written.
pub const MOD: u8 = 1;
/// No entry of the translation lookaside buffer for a fetch or a load, or one that is not valid.
pub const TLBL: u8 = 2;
/// The same for a store.
pub const TLBS: u8 = 3;
/// An address error of a fetch or a load.
pub const ADEL: u8 = 4;
/// An address error of a store.
pub const ADES: u8 = 5;
/// A bus error of a fetch.
pub const IBE: u8 = 6;
/// A bus error of a load or a store.
pub const DBE: u8 = 7;
/// SYSCALL.
pub const SYS: u8 = 8;
/// BREAK.
pub const BP: u8 = 9;
/// A reserved instruction.
pub const RI: u8 = 10;
/// A coprocessor that is not usable.
pub const CPU: u8 = 11;
/// An arithmetic overflow.
pub const OV: u8 = 12;
