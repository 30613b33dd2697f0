//! The numbers of the clocks. Each is this project's own.

/// How many ticks a processor is watched over, the newest included.
pub const WINDOW: u8 = 64;

/// How many of the last [`WINDOW`] ticks a good processor may miss.
pub const MISSES_ALLOWED: u8 = 4;

/// How many firings in a row make a refresh period. A processor numbers its firings from 0 to 255,
/// and over again.
pub const REFRESH_PERIOD: u16 = 256;

/// How many firings of each period, the last ones, go to the refresh of memory and do no work.
pub const REFRESH_FIRINGS: u16 = 2;

/// How many run cycles make a frame, at whose end each processor asks for a synchronisation, unless a machine is
/// given another.
pub const FRAME: u64 = 1024;

/// How many run cycles the shortest frame has that a machine may be given.
pub const SHORTEST_FRAME: u64 = 64;

/// How many run cycles the longest frame has that a machine may be given.
pub const LONGEST_FRAME: u64 = 4096;
