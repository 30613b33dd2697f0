//! What an access of a device register does outside of the devices.

/// What an access of a device register gives.
#[derive(Debug, Clone, Copy, PartialEq, Eq)]
pub struct Effect {
    /// The word that a load gives, and 0 for a store.
    pub word: u32,
    /// The byte that is written to the console: exactly a store to CONOUT writes one.
    pub out: Option<u8>,
    /// The halt value: exactly a store to HALT gives one.
    pub halt: Option<u32>,
}
