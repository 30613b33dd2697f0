//! The ranges of the numbers in a report. They are this project's own (`docs/FORMATS.md`).

/// The greatest run count, tick count or number of cycles that a reader of reports takes: 2^40.
pub const GREATEST_COUNT: u64 = 1_099_511_627_776;
/// The greatest number of misses that a reader of reports takes: the ticks of a watch's window.
pub const GREATEST_MISSES: u64 = 64;
