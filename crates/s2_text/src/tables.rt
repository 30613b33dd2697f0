//! From the readers of a table's rows to the answer for a line.

ghost use Rattle.std.specs.Prelude.{◌≡◌, ◌≤◌, List, length};
ghost use Rattle.s2_text.specs.declared.lines.TheConstants.{HELD_BYTES};
ghost use Rattle.s2_text.specs.LineTables.{LineRow};
ghost use Rattle.s2_text.specs.LineReading.{IsReading, further_of, remark_reading, ReadsRows, AnswersRow, AnswersLine};

use crate::lines::{HASH, LINE_BYTES};
use crate::stops::{BadLine, Stop};

/// Of two readings of a line: the one that is whole, or else the one that came further.
///
/// So a table needs no order: where forms begin alike, the one that fits the line longest says the column.
pub fn either<T: Drop>(a: Result<T, Stop>, b: Result<T, Stop>) -> Result<T, Stop>
    ensures { result ≡ further_of a b }
{
    match (a, b) {
        (Ok(found), _) => Ok(found),
        (Err(_), Ok(found)) => Ok(found),
        (Err(s), Err(t)) => Err(if s.left <= t.left { s } else { t }),
    }
}

/// Reads an empty line or a comment.
fn remark(line: &[u8]) -> Result<(), Stop>
    ensures { IsReading (λ u. u) result (remark_reading line.now) }
{
    match line.split_first() {
        None => Ok(()),
        Some((first, rest)) => {
            if *first != HASH {
                return Err(Stop { left: line.len() });
            }
            if rest.len() > LINE_BYTES - 1 {
                Err(Stop {
                    left: rest.len() - (LINE_BYTES - 1),
                })
            } else {
                Ok(())
            }
        }
    }
}

/// The answer for a line of a table beside empty lines and comments, whose rows read it as `found`.
///
/// `None` is an empty line or a comment.
pub fn with_remarks<T: Drop>(line: &[u8], found: Result<T, Stop>) -> Result<Option<T>, BadLine>
    requires { length line.now ≤ HELD_BYTES }
    ensures { (rows : List (LineRow T)) → ReadsRows rows line.now found → AnswersLine rows line.now result }
{
    match remark(line) {
        Ok(()) => Ok(None),
        Err(s) => match found {
            Ok(said) => Ok(Some(said)),
            Err(t) => {
                let left = s.left.min(t.left);
                Err(BadLine {
                    column: (line.len() - left) as u32 + 1,
                })
            }
        },
    }
}

/// The answer for a line of a table alone, whose rows read it as `found`.
pub fn without_remarks<T: Drop>(line: &[u8], found: Result<T, Stop>) -> Result<T, BadLine>
    requires { length line.now ≤ HELD_BYTES }
    ensures { (rows : List (LineRow T)) → ReadsRows rows line.now found → AnswersRow rows line.now result }
{
    match found {
        Ok(said) => Ok(said),
        Err(stop) => Err(BadLine {
            column: line.len().saturating_sub(stop.left) as u32 + 1,
        }),
    }
}
