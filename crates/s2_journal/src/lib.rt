//! The lines of a report: what a run writes of the machine, line by line, and how a report is read again.
#![tactic(auto)]

mod note;
mod order;
mod ranges;
mod reading;
mod rows;
#[cfg(test)]
mod tests;
mod writing;

pub use note::{Count, End, Note, Reason, ReportLine, Why};
pub use order::{ReportOrder, report_order};
pub use ranges::{GREATEST_COUNT, GREATEST_MISSES};
pub use reading::read_report;
pub use s2_text::BadLine;
pub use writing::{put_count, put_end, put_note};
