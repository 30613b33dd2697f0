//! What a reintegration copies, one at a time.

/// A word that is copied to the processor that joins: of its local list, or of its saved state.
#[derive(Debug, Clone, Copy, PartialEq, Eq)]
pub enum Item {
    /// A word of the local list, by its index, below `LOCAL_WORDS`.
    Local(u32),
    /// A word of a processor's saved state, by its number, below `SAVED_WORDS`.
    Saved(u8),
}
