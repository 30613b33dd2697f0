//! The top call: the words choose the command.

ghost use Rattle.std.specs.Prelude.{◌≡◌, Ok, Err, None, map, string_bytes};
ghost use Rattle.std.specs.declared.result.Result.{Result};
ghost use Rattle.s2_run.specs.CommandWords.{Request, words_of, IsOffered, IsUsage};
ghost use Rattle.s2_run.specs.SeenObjects.{seen, desk_seen, source_seen, sink_seen};
ghost use Rattle.s2_run.specs.FaultCounts.{FaultsAreTold};
ghost use Rattle.s2_run.specs.RunCommand.{end_status, run_status};
ghost use Rattle.s2_run.specs.SingleCommand.{single_status};
ghost use Rattle.s2_run.specs.CheckCommand.{check_status};
ghost use Rattle.s2_run.specs.LoadCommand.{load_status};
ghost use Rattle.s2_run.specs.ServedCommands.{Answers, RefusesWords};

use crate::check::check;
use crate::fault::ProgramFault;
use crate::limits::FILE_LIMIT;
use crate::load::{WorkloadFault, load};
use crate::output::{StreamFault, put_line};
use crate::run::{RunEnd, run};
use crate::single::{SingleEnd, single};
use crate::status::Status;
use crate::verdict::Verdict;
use crate::words::{Command, command_of};
use s2_io::{Desk, Sink, Source};
use s2_journal::End;
use s2_plant::Plant;
use std::alloc::Global;

/// The status of an end of a script.
fn end_status(end: End) -> Status
    ensures { result ≡ end_status end }
{
    match end {
        End::Script | End::Halt(_) | End::Report => Status::Done,
        End::Bad { line, column } => Status::BadLine { line, column },
        End::Outside { line, reason } => Status::Outside { line, reason },
        End::TooLong { line } => Status::TooLong { line },
    }
}

/// The status of an outcome of `run`.
fn run_status(outcome: Result<RunEnd, ProgramFault>) -> Status
    ensures { result ≡ run_status outcome }
{
    match outcome {
        Ok(RunEnd::Ended(end)) => end_status(end),
        Ok(RunEnd::Refused(fault)) => Status::Elf(fault),
        Ok(RunEnd::TooBig) => Status::TooBig { limit: FILE_LIMIT },
        Err(ProgramFault::File) => Status::ReadFault,
        Err(ProgramFault::Stream(StreamFault::Read)) => Status::ReadFault,
        Err(ProgramFault::Stream(StreamFault::Write)) => Status::WriteFault,
        Err(ProgramFault::Memory) => Status::Memory,
    }
}

/// The status of an outcome of `single`.
fn single_status(outcome: Result<SingleEnd, ProgramFault>) -> Status
    ensures { result ≡ single_status outcome }
{
    match outcome {
        Ok(SingleEnd::Replayed(Verdict::Passed)) => Status::Done,
        Ok(SingleEnd::Replayed(Verdict::Bad { line, column })) => Status::BadLine { line, column },
        Ok(SingleEnd::Replayed(Verdict::TooLong { line })) => Status::TooLong { line },
        Ok(SingleEnd::Refused(fault)) => Status::Elf(fault),
        Ok(SingleEnd::TooBig) => Status::TooBig { limit: FILE_LIMIT },
        Err(ProgramFault::File) => Status::ReadFault,
        Err(ProgramFault::Stream(StreamFault::Read)) => Status::ReadFault,
        Err(ProgramFault::Stream(StreamFault::Write)) => Status::WriteFault,
        Err(ProgramFault::Memory) => Status::Memory,
    }
}

/// The status of an outcome of `check`.
fn check_status(outcome: Result<Verdict, StreamFault>) -> Status
    ensures { result ≡ check_status outcome }
{
    match outcome {
        Ok(Verdict::Passed) => Status::Done,
        Ok(Verdict::Bad { line, column }) => Status::BadLine { line, column },
        Ok(Verdict::TooLong { line }) => Status::TooLong { line },
        Err(StreamFault::Read) => Status::ReadFault,
        Err(StreamFault::Write) => Status::WriteFault,
    }
}

/// The status of an outcome of `load`.
fn load_status(outcome: Result<End, WorkloadFault>) -> Status
    ensures { result ≡ load_status outcome }
{
    match outcome {
        Ok(end) => end_status(end),
        Err(WorkloadFault::Write) => Status::WriteFault,
        Err(WorkloadFault::Memory) => Status::Memory,
    }
}

/// Runs the command of the words: those of the command line after the program's name.
///
/// - `run NAME` reads the file NAME of the desk into memory, and runs the program on the triple machine under
///   the script that is the input, line by line. The console takes the program's bytes, and the report a line
///   for each delivered event, each processor that is out, and each repair, and then the end lines. The machine
///   to which the run came is left in `last`.
/// - `single NAME` reads the file NAME of the desk into memory, and the report that is the input: one
///   processor runs the program to each run count of the report, and takes its events there. After a halt
///   the report is only read. The console takes the program's bytes, and the report the closing lines.
/// - `check` reads the input, and writes to the report whether each of its lines is one of a script.
/// - `load N`, N from 1 to 1000, runs the built-in workload N on the triple machine, under the five lines of
///   its script. It writes what `run` writes, and reads neither the desk nor the input. The machine to which
///   the run came is left in `last`.
///
/// Other words are answered `Status::Usage`, with a line of the report. `Status` says when each answer
/// comes. The commands and their words are this project's own (`docs/FORMATS.md`).
pub fn serve<D: Desk, S: Source, C: Sink, R: Sink>(
    alloc: Global,
    words: &[String],
    desk: &mut D,
    input: &mut S,
    console: &mut C,
    report: &mut R,
    last: &mut Option<Plant>,
) -> Status
    requires { last.old ≡ None }
    // What is offered is answered by its command, and by no other.
    ensures command { (request : Request) → IsOffered request → map string_bytes words.now ≡ words_of request
        → Answers request result last.new
        (seen (desk_seen (D.held desk.old) (D.faults desk.old) (D.large desk.old))
        (source_seen (S.left input.old) (S.faults input.old))
        (sink_seen (C.taken console.old) (C.faults console.old) (C.empty_takes console.old))
        (sink_seen (R.taken report.old) (R.faults report.old) (R.empty_takes report.old)))
        (seen (desk_seen (D.held desk.new) (D.faults desk.new) (D.large desk.new))
        (source_seen (S.left input.new) (S.faults input.new))
        (sink_seen (C.taken console.new) (C.faults console.new) (C.empty_takes console.new))
        (sink_seen (R.taken report.new) (R.faults report.new) (R.empty_takes report.new))) }

    // Other words are refused.
    ensures usage { IsUsage (map string_bytes words.now)
        → RefusesWords result last.new
        (seen (desk_seen (D.held desk.old) (D.faults desk.old) (D.large desk.old))
        (source_seen (S.left input.old) (S.faults input.old))
        (sink_seen (C.taken console.old) (C.faults console.old) (C.empty_takes console.old))
        (sink_seen (R.taken report.old) (R.faults report.old) (R.empty_takes report.old)))
        (seen (desk_seen (D.held desk.new) (D.faults desk.new) (D.large desk.new))
        (source_seen (S.left input.new) (S.faults input.new))
        (sink_seen (C.taken console.new) (C.faults console.new) (C.empty_takes console.new))
        (sink_seen (R.taken report.new) (R.faults report.new) (R.empty_takes report.new))) }

    // Whatever the words, a call that failed is answered by its fault.
    ensures counts { FaultsAreTold result
        (seen (desk_seen (D.held desk.old) (D.faults desk.old) (D.large desk.old))
        (source_seen (S.left input.old) (S.faults input.old))
        (sink_seen (C.taken console.old) (C.faults console.old) (C.empty_takes console.old))
        (sink_seen (R.taken report.old) (R.faults report.old) (R.empty_takes report.old)))
        (seen (desk_seen (D.held desk.new) (D.faults desk.new) (D.large desk.new))
        (source_seen (S.left input.new) (S.faults input.new))
        (sink_seen (C.taken console.new) (C.faults console.new) (C.empty_takes console.new))
        (sink_seen (R.taken report.new) (R.faults report.new) (R.empty_takes report.new))) }
{
    match command_of(words) {
        Some(Command::Run(name)) => {
            run_status(run(alloc, name, desk, input, console, report, last))
        }
        Some(Command::Check) => check_status(check(input, report)),
        Some(Command::Single(name)) => {
            single_status(single(alloc, name, desk, input, console, report))
        }
        Some(Command::Load(n)) => load_status(load(alloc, n, console, report, last)),
        None => match put_line(report, b"usage") {
            Ok(()) => Status::Usage,
            Err(_) => Status::WriteFault,
        },
    }
}
