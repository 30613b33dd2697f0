//! Why a text gives no program.

/// The first fault of a text, with the number of its line, from 1.
///
/// The first five are of the first pass, over all lines; the other two are looked for only where it finds none.
/// Of a line the first that holds is answered, in this order.
#[derive(Clone, Copy, Debug, PartialEq, Eq, Drop)]
pub enum AsmFault {
    /// The line is outside the table of lines, from this column on, from 1.
    Bad { line: u64, column: u32 },
    /// The line is the 65th `.org`.
    Many { line: u64 },
    /// The address of an `.org` is no multiple of 4; or a word, an instruction or a label has no `.org` before
    /// it, or has the address 2^32.
    Place { line: u64 },
    /// The line gives word 540,673 of the text.
    Long { line: u64 },
    /// The label stood before.
    Twice { line: u64 },
    /// A label that the line uses stands nowhere.
    Unknown { line: u64 },
    /// The line's target is no multiple of 4, or out of reach: of a jump outside the 256 megabytes of the
    /// instruction behind it, of a branch more than 131,072 bytes before or 131,068 behind that.
    Reach { line: u64 },
}

/// Why a text gives no program.
#[derive(Clone, Copy, Debug, PartialEq, Eq, Drop)]
pub enum AsmFail {
    /// The text has a fault.
    Fault(AsmFault),
    /// Memory was refused.
    Memory,
}
