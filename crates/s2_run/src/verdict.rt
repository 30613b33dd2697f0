//! What reading an input to its end comes to.

/// What reading the lines of an input comes to. Lines are numbered from 1, and so are columns.
#[derive(Debug, Clone, Copy, PartialEq, Eq)]
pub enum Verdict {
    /// The input is whole: each of its lines may stand there.
    Passed,
    /// The line is the first that may not, from this column on.
    Bad { line: u64, column: u32 },
    /// The input has too many bytes: the first of them that is too many stands in the line.
    TooLong { line: u64 },
}
