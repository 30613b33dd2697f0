//! The command `check`: whether each line of an input is one of a script.

ghost use Rattle.std.specs.Prelude.{◌≡◌, ◌≤◌, ℕ, List, Some, IfOk, OnOk, OnErr};
ghost use Rattle.s2_io.specs.Counts.{Rose};
ghost use Rattle.s2_run.specs.SeenObjects.{SinkSeen, sink_seen};
ghost use Rattle.s2_run.specs.FaultCounts.{StreamCounts};
ghost use Rattle.s2_run.specs.ScriptCheck.{Judges};
ghost use Rattle.s2_run.specs.ScriptRuns.{ReadsScriptLine};
ghost use Rattle.s2_run.specs.ScriptRunParts.{entry_of};
ghost use Rattle.s2_run.specs.CheckCommand.{TakesFront, CheckEnds, CheckCause};

use crate::limits::INPUT_LIMIT;
use crate::lines::{LineRead, read_line};
use crate::output::{StreamFault, put_line};
use crate::report::verdict;
use crate::verdict::Verdict;
use s2_io::{Failed, Sink, Source};
use s2_script::{Entry, First, read_entry, read_first};
use s2_text::{BadLine, Lines};

/// What a line with a number says. Line 1 may be a version line, which says no step.
fn entry_at(line: u64, text: &[u8]) -> Result<Option<Entry>, BadLine>
    ensures { ReadsScriptLine line text.now result }
{
    if line == 1 {
        first_entry(read_first(text))
    } else {
        read_entry(text)
    }
}

/// The entry of line 1, where it has one.
fn first_entry(first: Result<First, BadLine>) -> Result<Option<Entry>, BadLine>
    ensures { result ≡ entry_of first }
{
    match first {
        Ok(First::Frame(_)) => Ok(None),
        Ok(First::Entry(entry)) => Ok(entry),
        Err(bad) => Err(bad),
    }
}

/// The verdict on the lines of an input.
fn check_lines<S: Source>(input: &mut S) -> Result<Verdict, Failed>
    ensures told { (s : List ℕ) → S.left input.old ≡ Some s
        → IfOk result (λ verdict. Judges s verdict (S.left input.new)) }
    ensures front { (s : List ℕ) → S.left input.old ≡ Some s → OnErr result (TakesFront s (S.left input.new)) }
    ensures failed { OnErr result (Rose (S.faults input.old) (S.faults input.new)) }
    ensures passed { OnOk result (S.faults input.new ≡ S.faults input.old) }
{
    let mut held = Lines::new();
    let mut ended = false;
    let mut taken = 0u64;
    let mut lines = 0u64;
    loop {
        let size = match read_line(input, INPUT_LIMIT - taken, &mut held, &mut ended) {
            Err(Failed) => return Err(Failed),
            Ok(LineRead::End) => return Ok(Verdict::Passed),
            Ok(LineRead::TooLong) => return Ok(Verdict::TooLong { line: lines + 1 }),
            Ok(LineRead::Line { size }) => size,
        };
        taken += size;
        lines += 1;
        match entry_at(lines, held.line()) {
            Ok(_) => {}
            Err(bad) => {
                return Ok(Verdict::Bad {
                    line: lines,
                    column: bad.column,
                });
            }
        }
    }
}

/// Checks a script, and writes the line of the verdict.
pub fn check<S: Source, R: Sink>(input: &mut S, report: &mut R) -> Result<Verdict, StreamFault>
    ensures told { (s : List ℕ) → S.left input.old ≡ Some s
        → CheckEnds s result (S.left input.new) (R.taken report.old) (R.taken report.new) }
    ensures cause { CheckCause result (S.faults input.old) (S.faults input.new)
        (sink_seen (R.taken report.old) (R.faults report.old) (R.empty_takes report.old))
        (sink_seen (R.taken report.new) (R.faults report.new) (R.empty_takes report.new)) }
    ensures counts { (console : SinkSeen) → StreamCounts result (S.faults input.old) (S.faults input.new) console console
        (sink_seen (R.taken report.old) (R.faults report.old) (R.empty_takes report.old))
        (sink_seen (R.taken report.new) (R.faults report.new) (R.empty_takes report.new)) }
{
    let found = match check_lines(input) {
        Ok(found) => found,
        Err(Failed) => return Err(StreamFault::Read),
    };
    match put_line(report, verdict(&found).as_slice()) {
        Ok(()) => Ok(found),
        Err(_) => Err(StreamFault::Write),
    }
}
