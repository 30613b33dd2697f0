//! The command `load N`: a built-in workload runs on the triple machine, under the lines of its script.

ghost use Rattle.std.specs.Prelude.{◌≡◌, ◌<◌, ◌≤◌, ◌^◌, ◌⊎◌, None, OnOk, OnErr, length};
ghost use Rattle.s2_gen.specs.declared.workloads.TheConstants.{WORKLOADS};
ghost use Rattle.s2_run.specs.SeenObjects.{SinkRose, sink_seen};
ghost use Rattle.s2_run.specs.FaultCounts.{SinkSame};
ghost use Rattle.s2_run.specs.RunTranscript.{taken};
ghost use Rattle.s2_run.specs.ScriptRunParts.{WriteCause};
ghost use Rattle.s2_run.specs.EntryRuns.{entries_run, AreProperEntries, OpenRun, WrittenRun};
ghost use Rattle.s2_run.specs.LoadCommand.{LoadEnds, WorkloadCounts};

use crate::closing::put_end_lines;
use crate::script_lines::{Finish, run_entry};
use s2_base::Memory;
use s2_gen::workload;
use s2_io::{Failed, Sink};
use s2_journal::End;
use s2_plant::Plant;
use s2_script::Entry;
use std::alloc::Global;

/// Why the command comes to no end.
#[derive(Debug, Clone, Copy, PartialEq, Eq)]
pub enum WorkloadFault {
    /// The console or the report could not be written.
    Write,
    /// Memory was refused.
    Memory,
}

/// Runs entries to an end, as the lines of a script from line 1 on.
fn run_entries<C: Sink, R: Sink>(
    plant: &mut Plant,
    entries: &[Entry],
    console: &mut C,
    report: &mut R,
) -> Result<Finish, Failed>
    requires proper { AreProperEntries entries.now }
    requires few { length entries.now < 2 ^ 32 }
    requires running { plant.old.halt ≡ None }
    requires ticks { plant.old.ticks ≡ 0 }
    requires events { plant.old.accepted ≡ 0 }
    ensures ran { OpenRun (entries_run 1 plant.old entries.now) result plant.new
        (taken (C.taken console.old) (R.taken report.old)) (taken (C.taken console.new) (R.taken report.new)) }
    ensures cause { WriteCause result
        (sink_seen (C.taken console.old) (C.faults console.old) (C.empty_takes console.old))
        (sink_seen (C.taken console.new) (C.faults console.new) (C.empty_takes console.new))
        (sink_seen (R.taken report.old) (R.faults report.old) (R.empty_takes report.old))
        (sink_seen (R.taken report.new) (R.faults report.new) (R.empty_takes report.new)) }
{
    let mut written = 0u64;
    for (i, entry) in entries.iter().enumerate() {
        match run_entry(plant, entry, i as u64 + 1, &mut written, console, report) {
            Ok(None) => {}
            Ok(Some(end)) => return Ok(Finish { end, written }),
            Err(Failed) => return Err(Failed),
        }
    }
    Ok(Finish {
        end: End::Script,
        written,
    })
}

/// Runs entries on a machine at its start, and writes the closing lines.
fn run_to_end<C: Sink, R: Sink>(
    plant: &mut Plant,
    entries: &[Entry],
    console: &mut C,
    report: &mut R,
) -> Result<End, Failed>
    requires proper { AreProperEntries entries.now }
    requires few { length entries.now < 2 ^ 32 }
    requires running { plant.old.halt ≡ None }
    requires ticks { plant.old.ticks ≡ 0 }
    requires events { plant.old.accepted ≡ 0 }
    ensures ran { WrittenRun (entries_run 1 plant.old entries.now) result plant.new
        (taken (C.taken console.old) (R.taken report.old)) (taken (C.taken console.new) (R.taken report.new)) }
    ensures cause { OnErr result (SinkRose
        (sink_seen (C.taken console.old) (C.faults console.old) (C.empty_takes console.old))
        (sink_seen (C.taken console.new) (C.faults console.new) (C.empty_takes console.new))
        ⊎ SinkRose
        (sink_seen (R.taken report.old) (R.faults report.old) (R.empty_takes report.old))
        (sink_seen (R.taken report.new) (R.faults report.new) (R.empty_takes report.new))) }
    ensures counts { OnOk result (SinkSame
        (sink_seen (C.taken console.old) (C.faults console.old) (C.empty_takes console.old))
        (sink_seen (C.taken console.new) (C.faults console.new) (C.empty_takes console.new))
        × SinkSame
        (sink_seen (R.taken report.old) (R.faults report.old) (R.empty_takes report.old))
        (sink_seen (R.taken report.new) (R.faults report.new) (R.empty_takes report.new))) }
{
    let finish = match run_entries(plant, entries, console, report) {
        Ok(finish) => finish,
        Err(Failed) => return Err(Failed),
    };
    match put_end_lines(
        report,
        plant.runs(),
        plant.ticks(),
        finish.written,
        &finish.end,
    ) {
        Ok(()) => Ok(finish.end),
        Err(_) => Err(Failed),
    }
}

/// Runs workload `n`, from 1 on, to the end of its script.
pub fn load<C: Sink, R: Sink>(
    alloc: Global,
    n: u32,
    console: &mut C,
    report: &mut R,
    last: &mut Option<Plant>,
) -> Result<End, WorkloadFault>
    requires none { last.old ≡ None }
    requires from_one { 1 ≤ n }
    requires known { n ≤ WORKLOADS }
    ensures ends { LoadEnds n result last.new
        (sink_seen (C.taken console.old) (C.faults console.old) (C.empty_takes console.old))
        (sink_seen (C.taken console.new) (C.faults console.new) (C.empty_takes console.new))
        (sink_seen (R.taken report.old) (R.faults report.old) (R.empty_takes report.old))
        (sink_seen (R.taken report.new) (R.faults report.new) (R.empty_takes report.new)) }
    ensures counts { WorkloadCounts result
        (sink_seen (C.taken console.old) (C.faults console.old) (C.empty_takes console.old))
        (sink_seen (C.taken console.new) (C.faults console.new) (C.empty_takes console.new))
        (sink_seen (R.taken report.old) (R.faults report.old) (R.empty_takes report.old))
        (sink_seen (R.taken report.new) (R.faults report.new) (R.empty_takes report.new)) }
{
    let made = match workload(alloc, n) {
        Ok(made) => made,
        Err(Memory) => return Err(WorkloadFault::Memory),
    };
    let machine = match Plant::new(alloc, &made.image) {
        Ok(machine) => machine,
        Err(Memory) => return Err(WorkloadFault::Memory),
    };
    let plant = last.insert(machine);
    match run_to_end(plant, made.entries.as_slice(), console, report) {
        Ok(end) => Ok(end),
        Err(Failed) => Err(WorkloadFault::Write),
    }
}
