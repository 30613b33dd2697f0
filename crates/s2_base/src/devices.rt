//! The registers of the devices, by their numbers in the physical map: register k stands at four bytes
//! from `DEVICE_START` plus 4 k on. They are this project's own (`docs/MACHINE.md`).

/// The console: a store writes the low byte of its word.
pub const CONOUT: u32 = 0;
/// The keyboard: a load takes the oldest waiting byte.
pub const CONIN: u32 = 1;
/// The keyboard's state: how many bytes wait, and whether one was lost.
pub const CONSTAT: u32 = 2;
/// The timer's count of ticks.
pub const TICKS: u32 = 3;
/// The timer's acknowledgement: a store lowers its interrupt line.
pub const TIMACK: u32 = 4;
/// The end: a store ends the run with its word as halt value.
pub const HALT: u32 = 5;
/// The private-write area: a store puts each agreeing processor's own value into its slot.
pub const PRIV: u32 = 6;
/// The slot of processor 0, which a load gives.
pub const PRIV0: u32 = 7;
/// The slot of processor 1.
pub const PRIV1: u32 = 8;
/// The slot of processor 2, the last register.
pub const PRIV2: u32 = 9;
