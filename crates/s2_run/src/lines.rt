//! The lines of an input, read a byte at a time.

ghost use Rattle.std.specs.Prelude.{◌≡◌, ◌<◌, ◌≤◌, ◌^◌, ℕ, List, [], Some, true, false, IfOk, OnOk, OnErr};
ghost use Rattle.s2_io.specs.Counts.{Rose};
ghost use Rattle.s2_run.specs.NextLine.{ReadsNext, FitsRoom, EndsFed};

use crate::output::next_byte;
use s2_io::{Failed, Source};
use s2_text::{Fed, Lines};

/// What the reading of the next line came to.
#[derive(Debug, Clone, Copy, PartialEq, Eq)]
pub enum LineRead {
    /// A line, which has so many bytes of the input, its line feed among them.
    Line { size: u64 },
    /// There is no further line.
    End,
    /// The line has more bytes than may be read.
    TooLong,
}

/// Reads the next line of an input into `line`, one byte at a time. At most `room` bytes and one more are
/// read: where the line has more than `room`, it is too long. `ended` tells whether the input has told its
/// end; after that it is not read again. A line has its line feed unless the input has told its end behind it.
pub fn read_line<S: Source>(
    input: &mut S,
    room: u64,
    line: &mut Lines,
    ended: &mut bool,
) -> Result<LineRead, Failed>
    requires { room < 2 ^ 32 }
    ensures told { (s : List ℕ) → S.left input.old ≡ Some s → (ended.old ≡ true → s ≡ [])
        → ReadsNext s room result line.new (S.left input.new) }
    ensures ended { (s : List ℕ) → S.left input.old ≡ Some s → (ended.old ≡ true → s ≡ [])
        → OnOk result (ended.new ≡ true → S.left input.new ≡ Some []) }
    ensures size { IfOk result (FitsRoom room) }
    ensures fed { (s : List ℕ) → S.left input.old ≡ Some s → IfOk result (λ read. ended.new ≡ false → EndsFed s read) }
    ensures going { OnErr result (ended.old ≡ false) }
    ensures faults_stay { S.faults input.old ≤ S.faults input.new }
    ensures failed { OnErr result (Rose (S.faults input.old) (S.faults input.new)) }
    ensures passed { OnOk result (S.faults input.new ≡ S.faults input.old) }
{
    line.clear();
    if *ended {
        return Ok(LineRead::End);
    }
    for size in 0..room + 1 {
        match next_byte(input) {
            Err(Failed) => return Err(Failed),
            Ok(None) => {
                *ended = true;
                if size == 0 {
                    return Ok(LineRead::End);
                }
                return Ok(LineRead::Line { size });
            }
            Ok(Some(byte)) => {
                if size == room {
                    return Ok(LineRead::TooLong);
                }
                match line.feed(byte) {
                    Fed::Held => {}
                    Fed::Ended => return Ok(LineRead::Line { size: size + 1 }),
                }
            }
        }
    }
    Ok(LineRead::TooLong)
}
