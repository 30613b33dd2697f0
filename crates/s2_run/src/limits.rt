//! The limits of a run, which are this project's own (`docs/FORMATS.md`).

/// The most bytes of a file.
pub const FILE_LIMIT: usize = 4_194_304;

/// The most bytes of an input.
pub const INPUT_LIMIT: u64 = 268_435_456;

/// The most ticks of a run.
pub const TICK_LIMIT: u64 = 1_099_511_627_776;
