//! The closing lines of a report.

ghost use Rattle.std.specs.Prelude.{◌≡◌, ◌<◌, IfErr, length};
ghost use Rattle.s2_io.specs.Sinks.{appended};
ghost use Rattle.s2_run.specs.SentPieces.{sent, SinkCause};
ghost use Rattle.s2_run.specs.ReportText.{end_lines, replay_lines};

use crate::output::{Cut, put_four_lines, put_three_lines};
use s2_io::Sink;
use s2_journal::{Count, End, put_count, put_end};

/// Writes the closing lines of a run: its run cycles, its ticks, its console bytes, and its end.
pub fn put_end_lines<R: Sink>(
    report: &mut R,
    runs: u64,
    ticks: u64,
    bytes: u64,
    end: &End,
) -> Result<(), Cut>
    ensures bytes { R.taken report.new
        ≡ appended (R.taken report.old) (sent result (end_lines runs ticks bytes end.now)) }
    ensures cut { IfErr result (λ e. e.taken < length (end_lines runs ticks bytes end.now)) }
    ensures cause { SinkCause result (R.faults report.old) (R.faults report.new)
        (R.empty_takes report.old) (R.empty_takes report.new) }
{
    let run_line = put_count(Count::Runs, runs);
    let tick_line = put_count(Count::Ticks, ticks);
    let byte_line = put_count(Count::Bytes, bytes);
    let end_line = put_end(end);
    put_four_lines(
        report,
        run_line.as_slice(),
        tick_line.as_slice(),
        byte_line.as_slice(),
        end_line.as_slice(),
    )
}

/// Writes the closing lines of a replay: its run cycles, its console bytes, and its end.
pub fn put_replay_lines<R: Sink>(
    report: &mut R,
    runs: u64,
    bytes: u64,
    end: &End,
) -> Result<(), Cut>
    ensures bytes { R.taken report.new
        ≡ appended (R.taken report.old) (sent result (replay_lines runs bytes end.now)) }
    ensures cut { IfErr result (λ e. e.taken < length (replay_lines runs bytes end.now)) }
    ensures cause { SinkCause result (R.faults report.old) (R.faults report.new)
        (R.empty_takes report.old) (R.empty_takes report.new) }
{
    let run_line = put_count(Count::Runs, runs);
    let byte_line = put_count(Count::Bytes, bytes);
    let end_line = put_end(end);
    put_three_lines(
        report,
        run_line.as_slice(),
        byte_line.as_slice(),
        end_line.as_slice(),
    )
}
