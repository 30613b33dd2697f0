//! Why a command comes to no end.

use crate::output::StreamFault;

/// Why a command that runs a program came to no end.
#[derive(Debug, Clone, Copy, PartialEq, Eq)]
pub enum ProgramFault {
    /// The file could not be read.
    File,
    /// The input could not be read, or the console or the report not written.
    Stream(StreamFault),
    /// Memory was refused.
    Memory,
}
