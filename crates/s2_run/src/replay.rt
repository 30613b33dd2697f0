//! The replay of a report by the single machine.

ghost use Rattle.std.specs.Prelude.{◌≡◌, ◌≢◌, ◌<◌, ◌≤◌, ◌+◌, ◌^◌, ℕ, List, Some, None, IfOk, IfErr, OnOk, length};
ghost use Rattle.std.specs.declared.option.Option.{Option};
ghost use Rattle.s2_io.specs.Sinks.{appended};
ghost use Rattle.s2_machine.specs.MachineRun.{after_delivery};
ghost use Rattle.s2_single.specs.SingleMachine.{in_run};
ghost use Rattle.s2_ports.specs.Events.{IsEventInRange};
ghost use Rattle.s2_journal.specs.ReportLines.{IsLineInRange};
ghost use Rattle.s2_journal.specs.ReportOrder.{closing_lines};
ghost use Rattle.s2_run.specs.declared.verdict.Verdict.{Verdict};
ghost use Rattle.s2_run.specs.declared.limits.TheConstants.{INPUT_LIMIT};
ghost use Rattle.s2_run.specs.SentPieces.{sent, SinkCause};
ghost use Rattle.s2_run.specs.SeenObjects.{SinkSeen, streams, sink_seen};
ghost use Rattle.s2_run.specs.FaultCounts.{StreamCounts};
ghost use Rattle.s2_run.specs.ReplayParts.{reached, after_line, LinesEnd, LinesCause};
ghost use Rattle.s2_run.specs.Replay.{run_of, replay_end, ReplayEnds};
ghost use Rattle.s2_run.specs.SingleCommand.{ReplayCause};

use crate::closing::put_replay_lines;
use crate::cycles::run_cycles;
use crate::limits::INPUT_LIMIT;
use crate::lines::{LineRead, read_line};
use crate::output::{Cut, StreamFault};
use crate::verdict::Verdict;
use s2_io::{Failed, Sink, Source};
use s2_journal::{End, ReportLine, ReportOrder};
use s2_ports::Event;
use s2_single::Single;
use s2_text::Lines;

/// What the lines of a report came to: the verdict on them, and how many bytes went to the console.
#[derive(Debug, Clone, Copy, PartialEq, Eq)]
pub struct ReplayedLines {
    pub verdict: Verdict,
    pub bytes: u64,
}

/// Runs a machine to a run count, where it has not come so far and does not halt before, and counts the
/// bytes that went to the console. After a halt nothing is run.
fn run_to<C: Sink>(machine: &mut Single, run: u64, console: &mut C) -> Result<u64, Cut>
    ensures bytes { C.taken console.new
        ≡ appended (C.taken console.old) (sent result (reached run machine.old).bytes) }
    ensures machine { OnOk result (machine.new ≡ (reached run machine.old).machine) }
    ensures count { IfOk result (λ n. n ≡ length (reached run machine.old).bytes) }
    ensures cut { IfErr result (λ e. e.taken < length (reached run machine.old).bytes) }
    ensures steps { IfOk result (λ n. machine.old.cpu.run + n ≤ machine.new.cpu.run) }
    ensures range { machine.old.cpu.run < 2 ^ 64 → OnOk result (machine.new.cpu.run < 2 ^ 64) }
    ensures cause { SinkCause result (C.faults console.old) (C.faults console.new)
        (C.empty_takes console.old) (C.empty_takes console.new) }
{
    match machine.halted() {
        Some(_) => Ok(0),
        None => {
            let cycles = run.saturating_sub(machine.run());
            run_cycles(machine, cycles, console)
        }
    }
}

/// An event acts on a machine that has not halted.
fn deliver(machine: &mut Single, event: Event)
    requires { IsEventInRange event }
    ensures machine { (bytes : List ℕ) → after_delivery (in_run machine.old bytes) event ≡ in_run machine.new bytes }
    ensures run { machine.new.cpu.run ≡ machine.old.cpu.run }
{
    if machine.halted().is_none() {
        machine.deliver(event);
    }
}

/// Does what a line of a report says: it runs the machine to its run count, and delivers its event. Other
/// lines do nothing. The bytes that went to the console are counted.
fn run_line<C: Sink>(machine: &mut Single, line: &ReportLine, console: &mut C) -> Result<u64, Cut>
    requires { IsLineInRange line.now }
    ensures bytes { C.taken console.new
        ≡ appended (C.taken console.old) (sent result (after_line line.now machine.old).bytes) }
    ensures machine { OnOk result (machine.new ≡ (after_line line.now machine.old).machine) }
    ensures count { IfOk result (λ n. n ≡ length (after_line line.now machine.old).bytes) }
    ensures cut { IfErr result (λ e. e.taken < length (after_line line.now machine.old).bytes) }
    ensures steps { IfOk result (λ n. machine.old.cpu.run + n ≤ machine.new.cpu.run) }
    ensures range { machine.old.cpu.run < 2 ^ 64 → OnOk result (machine.new.cpu.run < 2 ^ 64) }
    ensures named { run_of line.now < 2 ^ 64 }
    ensures cause { SinkCause result (C.faults console.old) (C.faults console.new)
        (C.empty_takes console.old) (C.empty_takes console.new) }
{
    match *line {
        ReportLine::Delivery { run, event } => match run_to(machine, run, console) {
            Ok(written) => {
                deliver(machine, event);
                Ok(written)
            }
            Err(cut) => Err(cut),
        },
        ReportLine::Runs(run) => run_to(machine, run, console),
        ReportLine::Other | ReportLine::Ticks | ReportLine::Bytes | ReportLine::End => Ok(0),
    }
}

/// The verdict at the end of the input, behind so many lines.
fn verdict_at_end(order: &ReportOrder, lines: u64) -> Verdict
    requires { lines ≤ INPUT_LIMIT }
    ensures whole { order.now.closing ≡ closing_lines → result ≡ Verdict.Passed }
    ensures early { order.now.closing ≢ closing_lines → result ≡ Verdict.Bad (lines + 1) 1 }
{
    match order.finish() {
        Ok(()) => Verdict::Passed,
        Err(bad) => Verdict::Bad {
            line: lines + 1,
            column: bad.column,
        },
    }
}

/// Runs a machine by the lines of a report, to the end of the report or to where it goes wrong. After a
/// halt the lines are only read.
fn replay_lines<S: Source, C: Sink>(
    machine: &mut Single,
    input: &mut S,
    console: &mut C,
) -> Result<ReplayedLines, StreamFault>
    requires { machine.old.cpu.run ≡ 0 }
    ensures told { (s : List ℕ) (report : Option (List ℕ)) → S.left input.old ≡ Some s
        → LinesEnd machine.old s result machine.new
        (streams (S.left input.old) (C.taken console.old) report)
        (streams (S.left input.new) (C.taken console.new) report) }
    ensures cause { LinesCause result (S.faults input.old) (S.faults input.new)
        (sink_seen (C.taken console.old) (C.faults console.old) (C.empty_takes console.old))
        (sink_seen (C.taken console.new) (C.faults console.new) (C.empty_takes console.new)) }
    ensures counts { (report : SinkSeen) → StreamCounts result (S.faults input.old) (S.faults input.new)
        (sink_seen (C.taken console.old) (C.faults console.old) (C.empty_takes console.old))
        (sink_seen (C.taken console.new) (C.faults console.new) (C.empty_takes console.new)) report report }
{
    let mut held = Lines::new();
    let mut ended = false;
    let mut order = ReportOrder::new();
    let mut taken = 0u64;
    let mut lines = 0u64;
    let mut bytes = 0u64;
    loop {
        let size = match read_line(input, INPUT_LIMIT - taken, &mut held, &mut ended) {
            Err(Failed) => return Err(StreamFault::Read),
            Ok(LineRead::End) => {
                let verdict = verdict_at_end(&order, lines);
                return Ok(ReplayedLines { verdict, bytes });
            }
            Ok(LineRead::TooLong) => {
                let verdict = Verdict::TooLong { line: lines + 1 };
                return Ok(ReplayedLines { verdict, bytes });
            }
            Ok(LineRead::Line { size }) => size,
        };
        taken += size;
        lines += 1;
        let said = match order.take(held.line()) {
            Ok(said) => said,
            Err(bad) => {
                let verdict = Verdict::Bad {
                    line: lines,
                    column: bad.column,
                };
                return Ok(ReplayedLines { verdict, bytes });
            }
        };
        match run_line(machine, &said, console) {
            Ok(written) => bytes += written,
            Err(_) => return Err(StreamFault::Write),
        }
    }
}

/// How a replay ends: where its report goes wrong, and else as its machine does.
fn end_of(verdict: &Verdict, halt: Option<u32>) -> End
    ensures { result ≡ replay_end verdict.now halt }
{
    match *verdict {
        Verdict::Passed => match halt {
            Some(value) => End::Halt(value),
            None => End::Report,
        },
        Verdict::Bad { line, column } => End::Bad { line, column },
        Verdict::TooLong { line } => End::TooLong { line },
    }
}

/// Replays a report on a machine at its start, and writes the closing lines.
pub fn replay<S: Source, C: Sink, R: Sink>(
    machine: &mut Single,
    input: &mut S,
    console: &mut C,
    report: &mut R,
) -> Result<Verdict, StreamFault>
    requires { machine.old.cpu.run ≡ 0 }
    ensures told { (s : List ℕ) → S.left input.old ≡ Some s
        → ReplayEnds machine.old s result
        (streams (S.left input.old) (C.taken console.old) (R.taken report.old))
        (streams (S.left input.new) (C.taken console.new) (R.taken report.new)) }
    ensures cause { ReplayCause result (S.faults input.old) (S.faults input.new)
        (sink_seen (C.taken console.old) (C.faults console.old) (C.empty_takes console.old))
        (sink_seen (C.taken console.new) (C.faults console.new) (C.empty_takes console.new))
        (sink_seen (R.taken report.old) (R.faults report.old) (R.empty_takes report.old))
        (sink_seen (R.taken report.new) (R.faults report.new) (R.empty_takes report.new)) }
    ensures counts { StreamCounts result (S.faults input.old) (S.faults input.new)
        (sink_seen (C.taken console.old) (C.faults console.old) (C.empty_takes console.old))
        (sink_seen (C.taken console.new) (C.faults console.new) (C.empty_takes console.new))
        (sink_seen (R.taken report.old) (R.faults report.old) (R.empty_takes report.old))
        (sink_seen (R.taken report.new) (R.faults report.new) (R.empty_takes report.new)) }
{
    let found = match replay_lines(machine, input, console) {
        Ok(found) => found,
        Err(fault) => return Err(fault),
    };
    let end = end_of(&found.verdict, machine.halted());
    match put_replay_lines(report, machine.run(), found.bytes, &end) {
        Ok(()) => Ok(found.verdict),
        Err(_) => Err(StreamFault::Write),
    }
}
