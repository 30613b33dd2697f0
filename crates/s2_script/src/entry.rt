//! What the lines of a script say. The rules are this project's own (`docs/FORMATS.md`).

use s2_ports::{BoardFault, Event, Posted};

/// What happens to the machine between two ticks. A processor is 0, 1 or 2.
#[derive(Debug, Clone, Copy, PartialEq, Eq)]
pub enum Act {
    /// An event of the devices joins the inbox.
    Event(Event),
    /// Saved word `k`, below 176, of processor `p` becomes `v`.
    Poke { p: u8, k: u8, v: u32 },
    /// Word `i` of the local list of processor `p`, below 278,528, becomes `v`.
    PokeLocal { p: u8, i: u32, v: u32 },
    /// The request stands in the port of processor `p`.
    Drive { p: u8, posted: Posted },
    /// The firings of processor `p` do nothing any more.
    Mute { p: u8 },
    /// Processor `p` is out.
    Remove { p: u8 },
    /// Processor `p` is brought back.
    Revive { p: u8 },
    /// A memory board has a fault.
    Board(BoardFault),
    /// The mending of a memory board begins, where it is out and none mends.
    Mend { board: u8 },
}

/// What a line of a script says.
#[derive(Debug, Clone, Copy, PartialEq, Eq)]
pub enum Entry {
    /// `n` ticks of the clocks, from 1 on. Bit `p` of the mask, which is below 8, says that the clock of
    /// processor `p` fires.
    Ticks { mask: u8, n: u64 },
    /// One act.
    One(Act),
}

/// What the first line of a script says: what any line may say, or how long a frame is.
#[derive(Debug, Clone, Copy, PartialEq, Eq)]
pub enum First {
    /// A frame has so many run cycles, from 64 to 4,096. It is no entry, and runs no step.
    Frame(u16),
    /// An entry, or `None` for an empty line or a comment.
    Entry(Option<Entry>),
}
