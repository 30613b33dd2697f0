//! The order of a report's lines, a line at a time.

ghost use Rattle.std.specs.Prelude.{◌≡◌, ◌≢◌, ◌+◌, ◌-◌, ◌<◌, ◌≤◌, ◌++◌, ◌∷◌, [], ℕ, List, max, nat_lt, IfOk, OnErr, IsOk, IfErr, ◌↔◌, bytes_eq, Some, None, not, ◌==◌, if◌then◌else◌};
ghost use Rattle.s2_journal.specs.declared.note.ReportLine.{ReportLine};
ghost use Rattle.s2_journal.specs.ReportLines.{IsLineInRange};
ghost use Rattle.s2_journal.specs.ReportOrder.{OrderState, order_state, closing_lines, place_of, closing_of, delivery_run, ReadsNext, order_fault, IsReport, IsBadReport, HasReportForm};

use crate::note::ReportLine;
use crate::reading::read_report;
use s2_text::BadLine;
use std::marker::Model;

/// The end line that `read_report` takes and a report for `single` does not have.
const END_REPORT: &[u8] = b"end report";

/// How many lines that are no notes a report has: `runs`, `ticks`, `bytes` and the end line.
const CLOSING_LINES: u8 = 4;

/// A reader of the order of a report's lines, which takes a line at a time.
///
/// Contracts see how many lines that are no notes it took, and the greatest RUN of a `d` line that it took.
#[derive(Drop)]
pub struct ReportOrder {
    closing: u8,
    latest: u64,
}

impl Model for ReportOrder {
    ghost use Rattle.std.specs.Prelude.{◌≤◌};
    ghost use Rattle.s2_journal.specs.ReportOrder.{OrderState, closing_lines};

    ghost Value = { OrderState };

    ghost view = { λ o. record { closing = o.closing; latest = o.latest } };

    ghost invariant = { λ o. o.closing ≤ closing_lines };
}

impl ReportOrder {
    /// A reader that took no line.
    pub fn new() -> ReportOrder
        ensures { result ≡ order_state [] }
    {
        ReportOrder {
            closing: 0,
            latest: 0,
        }
    }

    /// Takes the next line of a report for `single`, without its line feed.
    ///
    /// `BadLine` exactly where the line goes wrong: outside the table of `docs/FORMATS.md`, at the column of
    /// `read_report`; of another sort than may stand here, at column 1; a `d` line with a RUN below that of an
    /// earlier one, at column 3; a `runs` line with an N below the RUN of the last `d` line, at column 6; the
    /// first of these that holds. Then the reader is as it was.
    pub fn take(&mut self, line: &[u8]) -> Result<ReportLine, BadLine>
        ensures read { (before : List ReportLine) → self.old ≡ order_state before → ReadsNext before line.now result }
        ensures taken { (before : List ReportLine) → self.old ≡ order_state before → IfOk result (λ x. self.new ≡ order_state (before ++ x ∷ [])) }
        ensures unchanged { OnErr result (self.new ≡ self.old) }
        ensures range { IfOk result IsLineInRange }
    {
        let said = match read_report(line) {
            Ok(said) => said,
            Err(bad) => return Err(bad),
        };
        match self.fault(line, &said) {
            Some(column) => Err(BadLine { column }),
            None => {
                self.count(&said);
                Ok(said)
            }
        }
    }

    /// The answer at the end of the input: `BadLine` with column 1, of the line after the last, exactly where
    /// the report is not whole.
    pub fn finish(&self) -> Result<(), BadLine>
        ensures whole { IsOk result ↔ (self.now.closing ≡ closing_lines) }
        ensures column { IfErr result (λ bad. bad.column ≡ 1) }
    {
        if self.closing == CLOSING_LINES {
            Ok(())
        } else {
            Err(BadLine { column: 1 })
        }
    }

    /// The column where a line that says this goes wrong by the order.
    fn fault(&self, line: &[u8], said: &ReportLine) -> Option<u32>
        ensures { result ≡ order_fault self.now line.now said.now }
    {
        if self.closing != place(said) || line == END_REPORT {
            return Some(1);
        }
        match *said {
            ReportLine::Delivery { run, event: _ } => {
                if run < self.latest { Some(3) } else { None }
            }
            ReportLine::Runs(n) => { if n < self.latest { Some(6) } else { None } }
            _ => None,
        }
    }

    /// Counts a line that is in order.
    fn count(&mut self, said: &ReportLine)
        requires { self.old.closing ≡ place_of said.now }
        ensures closing { self.new.closing ≡ self.old.closing + closing_of said.now }
        ensures latest { self.new.latest ≡ max (delivery_run said.now) self.old.latest }
    {
        match *said {
            ReportLine::Delivery { run, event: _ } => self.latest = self.latest.max(run),
            ReportLine::Other => {}
            _ => self.closing += 1,
        }
    }
}

/// How many lines that are no notes stand before a line of this sort.
fn place(said: &ReportLine) -> u8
    ensures { result ≡ place_of said.now }
{
    match *said {
        ReportLine::Delivery { run: _, event: _ } => 0,
        ReportLine::Other => 0,
        ReportLine::Runs(_) => 0,
        ReportLine::Ticks => 1,
        ReportLine::Bytes => 2,
        ReportLine::End => 3,
    }
}

/// What the order of a report comes to.
///
/// Lines that are a whole report have its form: notes, then `runs`, `ticks`, `bytes` and an end line, and
/// nothing more, and no run count falls back. Lines are not both a whole report and a bad one, and a bad one
/// goes wrong at one place.
pub fn report_order()
    ensures form { (lines : List (List ℕ)) → (said : List ReportLine) → IsReport lines said → HasReportForm said }
    ensures either { (lines : List (List ℕ)) → (said : List ReportLine) → (line column : ℕ)
        → IsReport lines said → IsBadReport lines line column → ⊥ }
    ensures place { (lines : List (List ℕ)) → (line column line' column' : ℕ)
        → IsBadReport lines line column → IsBadReport lines line' column' → (line ≡ line') × (column ≡ column') }
{}
