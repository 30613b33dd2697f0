//! The command `run NAME`: the program of a file runs on the triple machine, under the script that is the input.

ghost use Rattle.std.specs.Prelude.{◌≡◌, ◌≤◌, ℕ, List, Some, None, IfSome, length};
ghost use Rattle.s2_run.specs.SeenObjects.{DeskSeen, seen, desk_seen, source_seen, sink_seen, streams};
ghost use Rattle.s2_run.specs.FaultCounts.{DeskSame, StreamCounts};
ghost use Rattle.s2_run.specs.RunTranscript.{taken};
ghost use Rattle.s2_run.specs.ScriptEndings.{ScriptEnds};
ghost use Rattle.s2_run.specs.ScriptRunParts.{StreamCause};
ghost use Rattle.s2_clock.specs.declared.numbers.TheConstants.{FRAME};
ghost use Rattle.s2_elf.specs.MemoryImage.{MemoryImage};
ghost use Rattle.s2_plant.specs.StepPromises.{IsFirstPlant};
ghost use Rattle.s2_triplex.specs.TriplexState.{with_frame};
ghost use Rattle.s2_run.specs.MaskedRuns.{first_triplex};
ghost use Rattle.s2_run.specs.RunCommand.{ProgramRuns, RunsFile, RunCause, RunCounts};

use crate::closing::put_end_lines;
use crate::fault::ProgramFault;
use crate::loading::{LoadFail, load};
use crate::output::{StreamFault, put_line};
use crate::report::refused;
use crate::script_lines::run_lines;
use s2_base::Memory;
use s2_elf::{ElfFault, Image};
use s2_io::{Desk, Sink, Source};
use s2_journal::End;
use s2_plant::Plant;
use std::alloc::Global;

/// How the command ends.
#[derive(Debug, Clone, Copy, PartialEq, Eq)]
pub enum RunEnd {
    /// The program was run, to this end of its script.
    Ended(End),
    /// The file is refused.
    Refused(ElfFault),
    /// The file has too many bytes.
    TooBig,
}

/// Runs the lines of a script on a machine at its start, and writes the closing lines.
fn run_script<S: Source, C: Sink, R: Sink>(
    plant: &mut Plant,
    input: &mut S,
    console: &mut C,
    report: &mut R,
) -> Result<End, StreamFault>
    requires running { plant.old.halt ≡ None }
    requires ticks { plant.old.ticks ≡ 0 }
    requires events { plant.old.accepted ≡ 0 }
    requires first { IsFirstPlant plant.old }
    requires frame { plant.old.frame ≡ FRAME }
    ensures told { (s : List ℕ) → S.left input.old ≡ Some s → ScriptEnds (λ frame. with_frame frame plant.old) s result plant.new
        (taken (C.taken console.old) (R.taken report.old)) (taken (C.taken console.new) (R.taken report.new)) (S.left input.new) }
    ensures cause { StreamCause result (S.faults input.old) (S.faults input.new)
        (sink_seen (C.taken console.old) (C.faults console.old) (C.empty_takes console.old))
        (sink_seen (C.taken console.new) (C.faults console.new) (C.empty_takes console.new))
        (sink_seen (R.taken report.old) (R.faults report.old) (R.empty_takes report.old))
        (sink_seen (R.taken report.new) (R.faults report.new) (R.empty_takes report.new)) }
    ensures counts { StreamCounts result (S.faults input.old) (S.faults input.new)
        (sink_seen (C.taken console.old) (C.faults console.old) (C.empty_takes console.old))
        (sink_seen (C.taken console.new) (C.faults console.new) (C.empty_takes console.new))
        (sink_seen (R.taken report.old) (R.faults report.old) (R.empty_takes report.old))
        (sink_seen (R.taken report.new) (R.faults report.new) (R.empty_takes report.new)) }
{
    let finish = match run_lines(plant, input, console, report) {
        Ok(finish) => finish,
        Err(fault) => return Err(fault),
    };
    match put_end_lines(
        report,
        plant.runs(),
        plant.ticks(),
        finish.written,
        &finish.end,
    ) {
        Ok(()) => Ok(finish.end),
        Err(_) => Err(StreamFault::Write),
    }
}

/// Runs a script on the machine of a program at its start, which is left in `last`.
fn run_machine<S: Source, C: Sink, R: Sink>(
    machine: Plant,
    input: &mut S,
    console: &mut C,
    report: &mut R,
    last: &mut Option<Plant>,
) -> Result<RunEnd, ProgramFault>
    requires running { machine.halt ≡ None }
    requires ticks { machine.ticks ≡ 0 }
    requires events { machine.accepted ≡ 0 }
    requires first { IsFirstPlant machine }
    requires frame { machine.frame ≡ FRAME }
    ensures told { (s : List ℕ) (image : MemoryImage) → machine ≡ first_triplex FRAME image → S.left input.old ≡ Some s
        → ProgramRuns image s result last.new
        (streams (S.left input.old) (C.taken console.old) (R.taken report.old))
        (streams (S.left input.new) (C.taken console.new) (R.taken report.new)) }
    ensures cause { (name : List ℕ) (desk desk' : DeskSeen) → DeskSame desk desk' → RunCause name result last.new
        (seen desk (source_seen (S.left input.old) (S.faults input.old))
        (sink_seen (C.taken console.old) (C.faults console.old) (C.empty_takes console.old))
        (sink_seen (R.taken report.old) (R.faults report.old) (R.empty_takes report.old)))
        (seen desk' (source_seen (S.left input.new) (S.faults input.new))
        (sink_seen (C.taken console.new) (C.faults console.new) (C.empty_takes console.new))
        (sink_seen (R.taken report.new) (R.faults report.new) (R.empty_takes report.new))) }
    ensures counts { (desk desk' : DeskSeen) → DeskSame desk desk' → RunCounts result
        (seen desk (source_seen (S.left input.old) (S.faults input.old))
        (sink_seen (C.taken console.old) (C.faults console.old) (C.empty_takes console.old))
        (sink_seen (R.taken report.old) (R.faults report.old) (R.empty_takes report.old)))
        (seen desk' (source_seen (S.left input.new) (S.faults input.new))
        (sink_seen (C.taken console.new) (C.faults console.new) (C.empty_takes console.new))
        (sink_seen (R.taken report.new) (R.faults report.new) (R.empty_takes report.new))) }
{
    let plant = last.insert(machine);
    match run_script(plant, input, console, report) {
        Ok(end) => Ok(RunEnd::Ended(end)),
        Err(fault) => Err(ProgramFault::Stream(fault)),
    }
}

/// Starts a program and runs a script on it.
fn run_program<S: Source, C: Sink, R: Sink>(
    alloc: Global,
    image: Image,
    input: &mut S,
    console: &mut C,
    report: &mut R,
    last: &mut Option<Plant>,
) -> Result<RunEnd, ProgramFault>
    requires { last.old ≡ None }
    ensures told { (s : List ℕ) → S.left input.old ≡ Some s
        → ProgramRuns image s result last.new
        (streams (S.left input.old) (C.taken console.old) (R.taken report.old))
        (streams (S.left input.new) (C.taken console.new) (R.taken report.new)) }
    ensures cause { (name : List ℕ) (desk desk' : DeskSeen) → DeskSame desk desk' → RunCause name result last.new
        (seen desk (source_seen (S.left input.old) (S.faults input.old))
        (sink_seen (C.taken console.old) (C.faults console.old) (C.empty_takes console.old))
        (sink_seen (R.taken report.old) (R.faults report.old) (R.empty_takes report.old)))
        (seen desk' (source_seen (S.left input.new) (S.faults input.new))
        (sink_seen (C.taken console.new) (C.faults console.new) (C.empty_takes console.new))
        (sink_seen (R.taken report.new) (R.faults report.new) (R.empty_takes report.new))) }
    ensures counts { (desk desk' : DeskSeen) → DeskSame desk desk' → RunCounts result
        (seen desk (source_seen (S.left input.old) (S.faults input.old))
        (sink_seen (C.taken console.old) (C.faults console.old) (C.empty_takes console.old))
        (sink_seen (R.taken report.old) (R.faults report.old) (R.empty_takes report.old)))
        (seen desk' (source_seen (S.left input.new) (S.faults input.new))
        (sink_seen (C.taken console.new) (C.faults console.new) (C.empty_takes console.new))
        (sink_seen (R.taken report.new) (R.faults report.new) (R.empty_takes report.new))) }
{
    match Plant::new(alloc, &image) {
        Ok(machine) => run_machine(machine, input, console, report, last),
        Err(Memory) => Err(ProgramFault::Memory),
    }
}

/// Runs a script on the file of a name.
pub fn run<D: Desk, S: Source, C: Sink, R: Sink>(
    alloc: Global,
    name: &str,
    desk: &mut D,
    input: &mut S,
    console: &mut C,
    report: &mut R,
    last: &mut Option<Plant>,
) -> Result<RunEnd, ProgramFault>
    requires { last.old ≡ None }
    ensures told { (file s : List ℕ) → D.held desk.old name.now ≡ Some file → S.left input.old ≡ Some s
        → RunsFile file s result last.new
        (streams (S.left input.old) (C.taken console.old) (R.taken report.old))
        (streams (S.left input.new) (C.taken console.new) (R.taken report.new)) }
    ensures cause { RunCause name.now result last.new
        (seen (desk_seen (D.held desk.old) (D.faults desk.old) (D.large desk.old))
        (source_seen (S.left input.old) (S.faults input.old))
        (sink_seen (C.taken console.old) (C.faults console.old) (C.empty_takes console.old))
        (sink_seen (R.taken report.old) (R.faults report.old) (R.empty_takes report.old)))
        (seen (desk_seen (D.held desk.new) (D.faults desk.new) (D.large desk.new))
        (source_seen (S.left input.new) (S.faults input.new))
        (sink_seen (C.taken console.new) (C.faults console.new) (C.empty_takes console.new))
        (sink_seen (R.taken report.new) (R.faults report.new) (R.empty_takes report.new))) }
    ensures counts { RunCounts result
        (seen (desk_seen (D.held desk.old) (D.faults desk.old) (D.large desk.old))
        (source_seen (S.left input.old) (S.faults input.old))
        (sink_seen (C.taken console.old) (C.faults console.old) (C.empty_takes console.old))
        (sink_seen (R.taken report.old) (R.faults report.old) (R.empty_takes report.old)))
        (seen (desk_seen (D.held desk.new) (D.faults desk.new) (D.large desk.new))
        (source_seen (S.left input.new) (S.faults input.new))
        (sink_seen (C.taken console.new) (C.faults console.new) (C.empty_takes console.new))
        (sink_seen (R.taken report.new) (R.faults report.new) (R.empty_takes report.new))) }
{
    match load(alloc, name, desk) {
        Ok(image) => run_program(alloc, image, input, console, report, last),
        Err(LoadFail::File) => Err(ProgramFault::File),
        Err(LoadFail::Memory) => Err(ProgramFault::Memory),
        Err(LoadFail::TooBig) => match put_line(report, b"toobig") {
            Ok(()) => Ok(RunEnd::TooBig),
            Err(_) => Err(ProgramFault::Stream(StreamFault::Write)),
        },
        Err(LoadFail::Refused(fault)) => match put_line(report, refused(&fault).as_slice()) {
            Ok(()) => Ok(RunEnd::Refused(fault)),
            Err(_) => Err(ProgramFault::Stream(StreamFault::Write)),
        },
    }
}
