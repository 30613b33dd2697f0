//! The slots of the private-write area.

/// A private value of each processor 0, 1 and 2. `NO_VALUE` stands where there is none.
#[derive(Debug, Clone, Copy, PartialEq, Eq)]
pub struct Slots {
    /// That of processor 0.
    pub a: u16,
    /// That of processor 1.
    pub b: u16,
    /// That of processor 2.
    pub c: u16,
}
