//! The command `single NAME`: a report is run again on the program of a file, by one processor.

ghost use Rattle.std.specs.Prelude.{◌≡◌, ℕ, List, Some};
ghost use Rattle.s2_run.specs.Execution.{started_image};
ghost use Rattle.s2_run.specs.SeenObjects.{DeskSeen, seen, desk_seen, source_seen, sink_seen, streams};
ghost use Rattle.s2_run.specs.FaultCounts.{DeskSame};
ghost use Rattle.s2_run.specs.SingleCommand.{ProgramEnds, SingleEnds, SingleCause, SingleCounts};

use crate::fault::ProgramFault;
use crate::loading::{LoadFail, load};
use crate::output::{StreamFault, put_line};
use crate::replay::replay;
use crate::report::refused;
use crate::verdict::Verdict;
use s2_base::Memory;
use s2_elf::{ElfFault, Image};
use s2_io::{Desk, Sink, Source};
use s2_single::Single;
use std::alloc::Global;

/// How the command ends.
#[derive(Debug, Clone, Copy, PartialEq, Eq)]
pub enum SingleEnd {
    /// The program was run by the report, as far as the report is right.
    Replayed(Verdict),
    /// The file is refused.
    Refused(ElfFault),
    /// The file has too many bytes.
    TooBig,
}

/// Replays a report on a machine at its start.
fn replay_machine<S: Source, C: Sink, R: Sink>(
    mut machine: Single,
    input: &mut S,
    console: &mut C,
    report: &mut R,
) -> Result<SingleEnd, ProgramFault>
    requires { machine.cpu.run ≡ 0 }
    ensures told { (s : List ℕ) → S.left input.old ≡ Some s
        → ProgramEnds machine s result
        (streams (S.left input.old) (C.taken console.old) (R.taken report.old))
        (streams (S.left input.new) (C.taken console.new) (R.taken report.new)) }
    ensures cause { (name : List ℕ) (desk desk' : DeskSeen) → DeskSame desk desk' → SingleCause name result
        (seen desk (source_seen (S.left input.old) (S.faults input.old))
        (sink_seen (C.taken console.old) (C.faults console.old) (C.empty_takes console.old))
        (sink_seen (R.taken report.old) (R.faults report.old) (R.empty_takes report.old)))
        (seen desk' (source_seen (S.left input.new) (S.faults input.new))
        (sink_seen (C.taken console.new) (C.faults console.new) (C.empty_takes console.new))
        (sink_seen (R.taken report.new) (R.faults report.new) (R.empty_takes report.new))) }
    ensures counts { (desk desk' : DeskSeen) → DeskSame desk desk' → SingleCounts result
        (seen desk (source_seen (S.left input.old) (S.faults input.old))
        (sink_seen (C.taken console.old) (C.faults console.old) (C.empty_takes console.old))
        (sink_seen (R.taken report.old) (R.faults report.old) (R.empty_takes report.old)))
        (seen desk' (source_seen (S.left input.new) (S.faults input.new))
        (sink_seen (C.taken console.new) (C.faults console.new) (C.empty_takes console.new))
        (sink_seen (R.taken report.new) (R.faults report.new) (R.empty_takes report.new))) }
{
    match replay(&mut machine, input, console, report) {
        Ok(verdict) => Ok(SingleEnd::Replayed(verdict)),
        Err(fault) => Err(ProgramFault::Stream(fault)),
    }
}

/// Starts a program and replays a report on it.
fn replay_program<S: Source, C: Sink, R: Sink>(
    alloc: Global,
    image: Image,
    input: &mut S,
    console: &mut C,
    report: &mut R,
) -> Result<SingleEnd, ProgramFault>
    ensures told { (s : List ℕ) → S.left input.old ≡ Some s
        → ProgramEnds (started_image image) s result
        (streams (S.left input.old) (C.taken console.old) (R.taken report.old))
        (streams (S.left input.new) (C.taken console.new) (R.taken report.new)) }
    ensures cause { (name : List ℕ) (desk desk' : DeskSeen) → DeskSame desk desk' → SingleCause name result
        (seen desk (source_seen (S.left input.old) (S.faults input.old))
        (sink_seen (C.taken console.old) (C.faults console.old) (C.empty_takes console.old))
        (sink_seen (R.taken report.old) (R.faults report.old) (R.empty_takes report.old)))
        (seen desk' (source_seen (S.left input.new) (S.faults input.new))
        (sink_seen (C.taken console.new) (C.faults console.new) (C.empty_takes console.new))
        (sink_seen (R.taken report.new) (R.faults report.new) (R.empty_takes report.new))) }
    ensures counts { (desk desk' : DeskSeen) → DeskSame desk desk' → SingleCounts result
        (seen desk (source_seen (S.left input.old) (S.faults input.old))
        (sink_seen (C.taken console.old) (C.faults console.old) (C.empty_takes console.old))
        (sink_seen (R.taken report.old) (R.faults report.old) (R.empty_takes report.old)))
        (seen desk' (source_seen (S.left input.new) (S.faults input.new))
        (sink_seen (C.taken console.new) (C.faults console.new) (C.empty_takes console.new))
        (sink_seen (R.taken report.new) (R.faults report.new) (R.empty_takes report.new))) }
{
    match Single::new(alloc, &image) {
        Ok(machine) => replay_machine(machine, input, console, report),
        Err(Memory) => Err(ProgramFault::Memory),
    }
}

/// Replays a report on the file of a name.
pub fn single<D: Desk, S: Source, C: Sink, R: Sink>(
    alloc: Global,
    name: &str,
    desk: &mut D,
    input: &mut S,
    console: &mut C,
    report: &mut R,
) -> Result<SingleEnd, ProgramFault>
    ensures told { (file s : List ℕ) → D.held desk.old name.now ≡ Some file → S.left input.old ≡ Some s
        → SingleEnds file s result
        (streams (S.left input.old) (C.taken console.old) (R.taken report.old))
        (streams (S.left input.new) (C.taken console.new) (R.taken report.new)) }
    ensures cause { SingleCause name.now result
        (seen (desk_seen (D.held desk.old) (D.faults desk.old) (D.large desk.old))
        (source_seen (S.left input.old) (S.faults input.old))
        (sink_seen (C.taken console.old) (C.faults console.old) (C.empty_takes console.old))
        (sink_seen (R.taken report.old) (R.faults report.old) (R.empty_takes report.old)))
        (seen (desk_seen (D.held desk.new) (D.faults desk.new) (D.large desk.new))
        (source_seen (S.left input.new) (S.faults input.new))
        (sink_seen (C.taken console.new) (C.faults console.new) (C.empty_takes console.new))
        (sink_seen (R.taken report.new) (R.faults report.new) (R.empty_takes report.new))) }
    ensures counts { SingleCounts result
        (seen (desk_seen (D.held desk.old) (D.faults desk.old) (D.large desk.old))
        (source_seen (S.left input.old) (S.faults input.old))
        (sink_seen (C.taken console.old) (C.faults console.old) (C.empty_takes console.old))
        (sink_seen (R.taken report.old) (R.faults report.old) (R.empty_takes report.old)))
        (seen (desk_seen (D.held desk.new) (D.faults desk.new) (D.large desk.new))
        (source_seen (S.left input.new) (S.faults input.new))
        (sink_seen (C.taken console.new) (C.faults console.new) (C.empty_takes console.new))
        (sink_seen (R.taken report.new) (R.faults report.new) (R.empty_takes report.new))) }
{
    match load(alloc, name, desk) {
        Ok(image) => replay_program(alloc, image, input, console, report),
        Err(LoadFail::File) => Err(ProgramFault::File),
        Err(LoadFail::Memory) => Err(ProgramFault::Memory),
        Err(LoadFail::TooBig) => match put_line(report, b"toobig") {
            Ok(()) => Ok(SingleEnd::TooBig),
            Err(_) => Err(ProgramFault::Stream(StreamFault::Write)),
        },
        Err(LoadFail::Refused(fault)) => match put_line(report, refused(&fault).as_slice()) {
            Ok(()) => Ok(SingleEnd::Refused(fault)),
            Err(_) => Err(ProgramFault::Stream(StreamFault::Write)),
        },
    }
}
