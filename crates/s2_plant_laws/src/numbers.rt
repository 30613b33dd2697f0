//! The numbers that the laws give. Each is this project's own, and follows from the rule of fair clocks.

/// How many ticks apart two good processors may post the same request, with frames of up to
/// [`FRAME`](s2_clock::FRAME) run cycles.
pub const SKEW_BOUND: u16 = 82;

/// The same, in ticks, with frames of up to [`LONGEST_FRAME`](s2_clock::LONGEST_FRAME) run cycles.
pub const LONG_SKEW_BOUND: u16 = 312;

/// The stated wait: at most so many ticks go from a good processor's posting to the verdict, with frames of up to
/// [`FRAME`](s2_clock::FRAME) run cycles.
pub const STATED_WAIT: u16 = 210;

/// The same with a frame that is longer than [`FRAME`](s2_clock::FRAME).
pub const LONG_STATED_WAIT: u16 = 696;

/// The stated reintegration: fewer than so many ticks go from a `revive` to the end of the repair, with frames of
/// up to [`FRAME`](s2_clock::FRAME) run cycles.
pub const STATED_REINTEGRATION: u32 = 5_000_000;

/// The same with a frame that is longer than [`FRAME`](s2_clock::FRAME).
pub const LONG_STATED_REINTEGRATION: u32 = 17_000_000;
