//! The lines of a script, run one after another.

ghost use Rattle.std.specs.Prelude.{◌≡◌, ◌<◌, ◌≤◌, ◌+◌, ◌^◌, ℕ, List, Some, None, IfOk, OnErr};
ghost use Rattle.s2_clock.specs.declared.numbers.TheConstants.{FRAME};
ghost use Rattle.s2_plant.specs.StepPromises.{IsFirstPlant};
ghost use Rattle.s2_triplex.specs.TriplexState.{TriplexState, with_frame};
ghost use Rattle.s2_text.specs.declared.stops.BadLine.{BadLine};
ghost use Rattle.s2_script.specs.ScriptLines.{IsProperEntry};
ghost use Rattle.s2_script.specs.FirstLines.{ReadsFirst};
ghost use Rattle.s2_script.specs.declared.entry.Entry.{Entry};
ghost use Rattle.s2_run.specs.declared.limits.TheConstants.{TICK_LIMIT};
ghost use Rattle.s2_run.specs.SeenObjects.{sink_seen};
ghost use Rattle.s2_run.specs.FaultCounts.{StreamCounts};
ghost use Rattle.s2_run.specs.ScriptRuns.{entry_run, read_run, ReadsScriptLine};
ghost use Rattle.s2_run.specs.RunTranscript.{taken};
ghost use Rattle.s2_run.specs.ScriptEndings.{CutAtStage};
ghost use Rattle.s2_run.specs.ScriptRunParts.{entry_of, framed_by, HasRun, LineWentIf, LinesEnd, ReadsAt, SinkStays, WriteCause, StreamCause};

use crate::limits::{INPUT_LIMIT, TICK_LIMIT};
use crate::lines::{LineRead, read_line};
use crate::output::StreamFault;
use crate::stepping::{take_act, take_ticks};
use s2_io::{Failed, Sink, Source};
use s2_journal::End;
use s2_plant::Plant;
use s2_script::{Entry, First, read_entry, read_first};
use s2_text::{BadLine, Lines};

/// Where the lines of an input came to an end.
#[derive(Debug, Clone, Copy, PartialEq, Eq)]
pub struct Finish {
    /// The end.
    pub end: End,
    /// How many bytes went to the console.
    pub written: u64,
}

/// Runs what a line says.
pub fn run_entry<C: Sink, R: Sink>(
    plant: &mut Plant,
    entry: &Entry,
    line: u64,
    written: &mut u64,
    console: &mut C,
    report: &mut R,
) -> Result<Option<End>, Failed>
    requires proper { IsProperEntry entry.now }
    requires running { plant.old.halt ≡ None }
    requires ticks { plant.old.ticks ≤ TICK_LIMIT }
    requires events { plant.old.accepted < 2 ^ 60 }
    requires count { written.old ≤ 2 ^ 60 }
    ensures ran { IfOk result (λ end. HasRun (entry_run line plant.old entry.now) end plant.new written.old written.new
        (taken (C.taken console.old) (R.taken report.old)) (taken (C.taken console.new) (R.taken report.new))) }
    ensures cut { OnErr result (CutAtStage (entry_run line plant.old entry.now).stages plant.new
        (taken (C.taken console.old) (R.taken report.old)) (taken (C.taken console.new) (R.taken report.new))) }
    ensures went { IfOk result (λ end. LineWentIf end plant.old plant.new written.old written.new) }
    ensures cause { WriteCause result
        (sink_seen (C.taken console.old) (C.faults console.old) (C.empty_takes console.old))
        (sink_seen (C.taken console.new) (C.faults console.new) (C.empty_takes console.new))
        (sink_seen (R.taken report.old) (R.faults report.old) (R.empty_takes report.old))
        (sink_seen (R.taken report.new) (R.faults report.new) (R.empty_takes report.new)) }
{
    match entry {
        Entry::Ticks { mask, n } => {
            if *n > TICK_LIMIT - plant.ticks() {
                return Ok(Some(End::TooLong { line }));
            }
            take_ticks(plant, *mask, *n, line, written, console, report)
        }
        Entry::One(act) => take_act(plant, act, line, written, console, report),
    }
}

/// The entry of line 1, where it has one. Where it is a version line, the machine has its frame.
fn choose_frame(plant: &mut Plant, first: Result<First, BadLine>) -> Result<Option<Entry>, BadLine>
    requires first { IsFirstPlant plant.old }
    requires grammar { (text : List ℕ) × ReadsFirst text first }
    ensures read { result ≡ entry_of first }
    ensures machine { plant.new ≡ framed_by first plant.old }
{
    match first {
        Ok(First::Frame(frame)) => {
            plant.set_frame(frame);
            Ok(None)
        }
        Ok(First::Entry(entry)) => Ok(entry),
        Err(bad) => Err(bad),
    }
}

/// Reads a line with a number: line 1 may choose the frame.
fn read_at(plant: &mut Plant, line: u64, text: &[u8]) -> Result<Option<Entry>, BadLine>
    requires { line ≡ 1 → IsFirstPlant plant.old }
    ensures { ReadsAt line text.now plant.old result plant.new }
{
    if line == 1 {
        choose_frame(plant, read_first(text))
    } else {
        read_entry(text)
    }
}

/// Runs a line as it was read.
fn run_read<C: Sink, R: Sink>(
    plant: &mut Plant,
    read: Result<Option<Entry>, BadLine>,
    line: u64,
    written: &mut u64,
    console: &mut C,
    report: &mut R,
) -> Result<Option<End>, Failed>
    requires grammar { (text : List ℕ) × ReadsScriptLine line text read }
    requires running { plant.old.halt ≡ None }
    requires ticks { plant.old.ticks ≤ TICK_LIMIT }
    requires events { plant.old.accepted < 2 ^ 60 }
    requires count { written.old ≤ 2 ^ 60 }
    ensures ran { IfOk result (λ end. HasRun (read_run line plant.old read) end plant.new written.old written.new
        (taken (C.taken console.old) (R.taken report.old)) (taken (C.taken console.new) (R.taken report.new))) }
    ensures cut { OnErr result (CutAtStage (read_run line plant.old read).stages plant.new
        (taken (C.taken console.old) (R.taken report.old)) (taken (C.taken console.new) (R.taken report.new))) }
    ensures went { IfOk result (λ end. LineWentIf end plant.old plant.new written.old written.new) }
    ensures cause { WriteCause result
        (sink_seen (C.taken console.old) (C.faults console.old) (C.empty_takes console.old))
        (sink_seen (C.taken console.new) (C.faults console.new) (C.empty_takes console.new))
        (sink_seen (R.taken report.old) (R.faults report.old) (R.empty_takes report.old))
        (sink_seen (R.taken report.new) (R.faults report.new) (R.empty_takes report.new)) }
{
    match read {
        Err(bad) => Ok(Some(End::Bad {
            line,
            column: bad.column,
        })),
        Ok(None) => Ok(None),
        Ok(Some(entry)) => run_entry(plant, &entry, line, written, console, report),
    }
}

/// Runs the lines of an input to an end.
///
/// Each line is run, with what it writes, before the next one is read.
pub fn run_lines<S: Source, C: Sink, R: Sink>(
    plant: &mut Plant,
    input: &mut S,
    console: &mut C,
    report: &mut R,
) -> Result<Finish, StreamFault>
    requires running { plant.old.halt ≡ None }
    requires ticks { plant.old.ticks ≡ 0 }
    requires events { plant.old.accepted ≡ 0 }
    requires first { IsFirstPlant plant.old }
    requires frame { plant.old.frame ≡ FRAME }
    ensures told { (s : List ℕ) → S.left input.old ≡ Some s → LinesEnd (λ frame. with_frame frame plant.old) s result plant.new
        (taken (C.taken console.old) (R.taken report.old)) (taken (C.taken console.new) (R.taken report.new)) (S.left input.new) }
    ensures cause { StreamCause result (S.faults input.old) (S.faults input.new)
        (sink_seen (C.taken console.old) (C.faults console.old) (C.empty_takes console.old))
        (sink_seen (C.taken console.new) (C.faults console.new) (C.empty_takes console.new))
        (sink_seen (R.taken report.old) (R.faults report.old) (R.empty_takes report.old))
        (sink_seen (R.taken report.new) (R.faults report.new) (R.empty_takes report.new)) }
    ensures counts { StreamCounts result (S.faults input.old) (S.faults input.new)
        (sink_seen (C.taken console.old) (C.faults console.old) (C.empty_takes console.old))
        (sink_seen (C.taken console.new) (C.faults console.new) (C.empty_takes console.new))
        (sink_seen (R.taken report.old) (R.faults report.old) (R.empty_takes report.old))
        (sink_seen (R.taken report.new) (R.faults report.new) (R.empty_takes report.new)) }
    ensures console_stays { SinkStays
        (sink_seen (C.taken console.old) (C.faults console.old) (C.empty_takes console.old))
        (sink_seen (C.taken console.new) (C.faults console.new) (C.empty_takes console.new)) }
    ensures report_stays { SinkStays
        (sink_seen (R.taken report.old) (R.faults report.old) (R.empty_takes report.old))
        (sink_seen (R.taken report.new) (R.faults report.new) (R.empty_takes report.new)) }
{
    let mut held = Lines::new();
    let mut taken = 0u64;
    let mut lines = 0u64;
    let mut written = 0u64;
    let mut ended = false;
    loop {
        let size = match read_line(input, INPUT_LIMIT - taken, &mut held, &mut ended) {
            Err(Failed) => return Err(StreamFault::Read),
            Ok(LineRead::End) => {
                return Ok(Finish {
                    end: End::Script,
                    written,
                });
            }
            Ok(LineRead::TooLong) => {
                return Ok(Finish {
                    end: End::TooLong { line: lines + 1 },
                    written,
                });
            }
            Ok(LineRead::Line { size }) => size,
        };
        taken += size;
        lines += 1;
        let read = read_at(plant, lines, held.line());
        match run_read(plant, read, lines, &mut written, console, report) {
            Ok(None) => {}
            Ok(Some(end)) => return Ok(Finish { end, written }),
            Err(Failed) => return Err(StreamFault::Write),
        }
    }
}
