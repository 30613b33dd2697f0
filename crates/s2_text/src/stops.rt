//! Where reading stops.

/// Where the reader of a part stopped: so many bytes of the line stand from the fault on.
///
/// Counted from the end, so that a reader of several parts passes it on as it is.
#[derive(Clone, Copy, Debug, Drop)]
pub struct Stop {
    /// How many bytes stand from the fault on.
    pub left: usize,
}

/// A line outside the grammar.
#[derive(Clone, Copy, Debug, PartialEq, Eq, Drop)]
pub struct BadLine {
    /// The column where it goes wrong, from 1: one more than the length of its longest prefix that is a
    /// prefix of a line of the grammar.
    pub column: u32,
}
