//! Numbers of the triple machine. They are this project's own (`docs/MACHINE.md`).

/// How many events may wait for their delivery.
pub const INBOX_EVENTS: usize = 64;
