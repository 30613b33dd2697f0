//! The reader of a report's lines.

ghost use Rattle.std.specs.Prelude.{◌≡◌, IfOk, Ok};
ghost use Rattle.s2_text.specs.LineReading.{ReadsRows};
ghost use Rattle.s2_text.specs.LineTables.{ReadsRow, SaysIn};
ghost use Rattle.s2_journal.specs.declared.note.ReportLine.{ReportLine};
ghost use Rattle.s2_journal.specs.ReportLines.{IsLineInRange, note_rows, count_rows, end_rows, report_rows};

use crate::note::ReportLine;
use crate::rows::{
    board, bytes, delivered_key, delivered_private, delivered_tick, end_bad, end_board, end_halt,
    end_report, end_script, end_second, end_slow, end_too_long, join, joined, lost_key, lost_tick,
    mend, mended, out, repair, runs, ticks,
};
use s2_text::{BadLine, HELD_BYTES, Stop, either, front, without_remarks};

/// Reads a line of a note.
fn line_of_note(line: &[u8]) -> Result<ReportLine, Stop>
    ensures { ReadsRows note_rows line.now result }
{
    let found = delivered_private(line);
    let found = either(mended(line), found);
    let found = either(mend(line), found);
    let found = either(joined(line, b"tainted"), found);
    let found = either(joined(line, b"good"), found);
    let found = either(join(line), found);
    let found = either(board(line), found);
    let found = either(repair(line), found);
    let found = either(lost_key(line), found);
    let found = either(lost_tick(line), found);
    let found = either(out(line, b"removed"), found);
    let found = either(out(line, b"late"), found);
    let found = either(out(line, b"differ"), found);
    let found = either(delivered_key(line), found);
    either(delivered_tick(line), found)
}

/// Reads a line of a count.
fn line_of_count(line: &[u8]) -> Result<ReportLine, Stop>
    ensures { ReadsRows count_rows line.now result }
{
    let found = bytes(line);
    let found = either(ticks(line), found);
    either(runs(line), found)
}

/// Reads an end line.
fn line_of_end(line: &[u8]) -> Result<ReportLine, Stop>
    ensures { ReadsRows end_rows line.now result }
{
    let found = end_report(line);
    let found = either(end_too_long(line), found);
    let found = either(end_board(line), found);
    let found = either(end_slow(line), found);
    let found = either(end_second(line), found);
    let found = either(end_bad(line), found);
    let found = either(end_halt(line), found);
    either(end_script(line), found)
}

/// Reads a line by each row of the table.
fn table_line(line: &[u8]) -> Result<ReportLine, Stop>
    ensures { ReadsRows report_rows line.now result }
{
    let found = either(line_of_count(line), line_of_end(line));
    either(line_of_note(line), found)
}

/// Reads a line of a report, without its line feed, of any length.
///
/// `BadLine` exactly where the line is outside the table of `docs/FORMATS.md`, with the column after its
/// longest prefix that is a prefix of a line of the table.
pub fn read_report(line: &[u8]) -> Result<ReportLine, BadLine>
    ensures read { ReadsRow report_rows line.now result }
    ensures line { (x : ReportLine) → SaysIn report_rows x line.now → result ≡ Ok x }
    ensures range { IfOk result IsLineInRange }
{
    let seen = front(line, HELD_BYTES);
    without_remarks(seen, table_line(seen))
}
