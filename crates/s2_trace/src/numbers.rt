//! How much a trace holds.

/// How many deliveries a trace takes.
pub const MOST_DELIVERIES: usize = 65_536;
/// How many machines a trace keeps.
pub const CHECKPOINTS: usize = 16;
