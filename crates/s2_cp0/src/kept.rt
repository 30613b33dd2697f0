//! The registers that hold a word.

/// A register of coprocessor 0 that holds a word. Random and PRId hold none.
#[derive(Debug, Clone, Copy, PartialEq, Eq)]
pub enum KeptRegister {
    /// Register 0.
    Index,
    /// Register 2.
    EntryLo,
    /// Register 4.
    Context,
    /// Register 8.
    BadVAddr,
    /// Register 10.
    EntryHi,
    /// Register 12.
    Status,
    /// Register 13.
    Cause,
    /// Register 14.
    Epc,
}
