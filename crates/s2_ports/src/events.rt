//! What comes from outside: events of the devices and faults of the boards. The rules are this project's
//! own (`docs/MACHINE.md`).

/// What stands for the private value of a processor that does not agree; every private value is below it.
pub const NO_VALUE: u16 = 256;

/// An event of the devices.
#[derive(Debug, Clone, Copy, PartialEq, Eq)]
pub enum Event {
    /// A tick of the timer.
    Tick,
    /// A byte from the keyboard.
    Key(u8),
    /// The private values of processors 0, 1 and 2 at an agreed store to PRIV, each at most `NO_VALUE`. The
    /// machine makes this event itself: it never comes from outside.
    Private { a: u16, b: u16, c: u16 },
}

/// A fault of a memory board. A board is 0 or 1.
#[derive(Debug, Clone, Copy, PartialEq, Eq)]
pub enum BoardFault {
    /// The board is out for good.
    Dead { board: u8 },
    /// One data bit, below 32, of the board's word at an index below 262,144 changes, and its parity bit
    /// does not.
    Flip { board: u8, index: u32, bit: u8 },
}
