//! The numbers of the devices: how many bytes may wait, and what is read in the registers and lines.

/// How many bytes of the keyboard may wait. One more is dropped.
pub const WAITING_BYTES: usize = 16;
/// What a load of CONIN gives where no byte waits.
pub const NO_BYTE: u32 = 0x100;
/// The bit of CONSTAT that stands for a byte that was dropped.
pub const OVERRUN: u32 = 0x8000_0000;
/// The interrupt line that is up while bytes wait, bit 10 of Cause.
pub const KEYBOARD_LINE: u8 = 1;
/// The interrupt line that each tick of the timer raises, bit 11 of Cause.
pub const TIMER_LINE: u8 = 2;
