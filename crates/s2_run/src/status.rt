//! The answer of the top call.

ghost use Rattle.std.specs.Prelude.{◌≡◌};
ghost use Rattle.s2_run.specs.Statuses.{number_of};

use s2_elf::ElfFault;
use s2_journal::Reason;

/// How a command ended.
///
/// The numbers are the exit statuses of the program (`docs/FORMATS.md`).
#[derive(Debug, Clone, Copy, PartialEq, Eq)]
pub enum Status {
    /// `run` and `load`: the program halted, or the script was run to its end. `single`: the input is a
    /// report, and was read to its end. `check`: each line of the input is one of a script.
    Done,
    /// The words ask for nothing that is offered.
    Usage,
    /// The file is refused, for the first condition that is false.
    Elf(ElfFault),
    /// A line of the input, from 1, is the first outside the grammar, from this column on, from 1. A report
    /// that ends too early is bad at column 1 of the line after its last.
    BadLine { line: u64, column: u32 },
    /// A step of this line of the script, from 1, is not lawful, and for this reason.
    Outside { line: u64, reason: Reason },
    /// The file or the input could not be read. It comes only where the desk's count of faults for
    /// the file's name or the input's count of faults rose.
    ReadFault,
    /// The console or the report could not be written. It comes only where a count of faults or of
    /// empty takes of one of them rose.
    WriteFault,
    /// The file has more bytes than the limit, which is 4,194,304.
    TooBig { limit: usize },
    /// The input has more than 268,435,456 bytes. The byte after them stands in this line, from 1.
    TooLong { line: u64 },
    /// Memory was refused, before the input was read and before anything was written.
    Memory,
}

impl Status {
    /// The exit status of the program.
    pub fn number(&self) -> u8
        ensures { result ≡ number_of self.now }
    {
        match self {
            Status::Done => 0,
            Status::Usage => 2,
            Status::Elf(_) => 3,
            Status::BadLine { line: _, column: _ } => 4,
            Status::Outside { line: _, reason: _ } => 5,
            Status::ReadFault => 6,
            Status::WriteFault => 7,
            Status::TooBig { limit: _ } => 8,
            Status::TooLong { line: _ } => 9,
            Status::Memory => 10,
        }
    }
}
