//! Whether a processor takes part.

/// Whether a processor takes part. The rules are this project's own (`docs/MACHINE.md`).
#[derive(Debug, Clone, Copy, PartialEq, Eq)]
pub enum Membership {
    /// It is a member: the voter latches what it asks for.
    In,
    /// It takes no part.
    Out,
    /// It is being brought back, and takes no part yet.
    Joining,
}
