//! What a look-up of an address gives.

/// What the translation lookaside buffer says of an access to a mapped address.
///
/// Source: MIPS R2000, the exceptions of the translation lookaside buffer.
#[derive(Debug, Clone, Copy, PartialEq, Eq)]
pub enum Look {
    /// The address is translated: the physical address.
    Hit(u32),
    /// No entry matches the address.
    Miss,
    /// The entry that matches is not valid.
    Invalid,
    /// The access is a store, and the entry that matches is valid and not dirty.
    ReadOnly,
}
