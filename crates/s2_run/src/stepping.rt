//! The steps of a line of a script, each with what it writes.

ghost use Rattle.std.specs.Prelude.{◌≡◌, ◌<◌, ◌≤◌, ◌+◌, ◌^◌, ℕ, None, IfOk, IfErr, OnErr, length};
ghost use Rattle.s2_machine.specs.MachineRun.{bytes_of};
ghost use Rattle.s2_triplex.specs.R2000Triplex.{r2000_triplex};
ghost use Rattle.s2_triplex.specs.TriplexState.{TriplexState};
ghost use Rattle.s2_triplex.specs.TriplexSteps.{TriplexStep, script_act, step_answer, next_after_step};
ghost use Rattle.s2_script.specs.ScriptLines.{IsProperEntry};
ghost use Rattle.s2_script.specs.declared.entry.Entry.{Entry};
ghost use Rattle.s2_run.specs.declared.limits.TheConstants.{TICK_LIMIT};
ghost use Rattle.s2_run.specs.SeenObjects.{sink_seen};
ghost use Rattle.s2_run.specs.SentPieces.{sent};
ghost use Rattle.s2_run.specs.ScriptRuns.{step_run, ticks_run};
ghost use Rattle.s2_run.specs.RunTranscript.{taken, with_transcript, turn_transcript};
ghost use Rattle.s2_run.specs.ScriptEndings.{CutAtStage};
ghost use Rattle.s2_run.specs.ScriptRunParts.{HasRun, TicksWentIf, WriteCause};

use crate::output::{Cut, put, put_notes};
use s2_io::{Failed, Sink};
use s2_journal::{End, Reason};
use s2_plant::{Plant, Turn};
use s2_script::Act;

/// Writes the console byte of a step and then the lines of its notes, and counts the console's bytes.
fn emit<C: Sink, R: Sink>(console: &mut C, report: &mut R, turn: &Turn) -> Result<u64, Cut>
    ensures bytes { taken (C.taken console.new) (R.taken report.new)
        ≡ with_transcript (taken (C.taken console.old) (R.taken report.old)) (sent result (turn_transcript turn.now)) }
    ensures count { IfOk result (λ n. n ≡ length (bytes_of turn.now.out)) }
    ensures cut { IfErr result (λ e. e.taken < length (turn_transcript turn.now)) }
    ensures cause { WriteCause result
        (sink_seen (C.taken console.old) (C.faults console.old) (C.empty_takes console.old))
        (sink_seen (C.taken console.new) (C.faults console.new) (C.empty_takes console.new))
        (sink_seen (R.taken report.old) (R.faults report.old) (R.empty_takes report.old))
        (sink_seen (R.taken report.new) (R.faults report.new) (R.empty_takes report.new)) }
{
    match turn.byte() {
        None => match put_notes(report, turn.notes()) {
            Ok(()) => Ok(0),
            Err(cut) => Err(cut),
        },
        Some(byte) => {
            match put(console, &[byte]) {
                Ok(()) => {}
                Err(cut) => return Err(cut),
            }
            match put_notes(report, turn.notes()) {
                Ok(()) => Ok(1),
                Err(cut) => Err(Cut {
                    taken: 1 + cut.taken,
                }),
            }
        }
    }
}

/// Writes what a step of a line answered, and gives the end of the run, if it comes here.
fn take_answer<C: Sink, R: Sink>(
    plant: &Plant,
    answer: Result<Turn, Reason>,
    line: u64,
    written: &mut u64,
    console: &mut C,
    report: &mut R,
) -> Result<Option<End>, Failed>
    requires count { written.old < 2 ^ 62 }
    ensures ran { (d : TriplexState) (step : TriplexStep)
        → answer ≡ step_answer r2000_triplex d step → plant.now ≡ next_after_step r2000_triplex d step
        → IfOk result (λ end. HasRun (step_run line d step) end plant.now written.old written.new
        (taken (C.taken console.old) (R.taken report.old)) (taken (C.taken console.new) (R.taken report.new))) }
    ensures cut { (d : TriplexState) (step : TriplexStep)
        → answer ≡ step_answer r2000_triplex d step → plant.now ≡ next_after_step r2000_triplex d step
        → OnErr result (CutAtStage (step_run line d step).stages plant.now
        (taken (C.taken console.old) (R.taken report.old)) (taken (C.taken console.new) (R.taken report.new))) }
    ensures added { written.new ≤ written.old + 1 }
    ensures cause { WriteCause result
        (sink_seen (C.taken console.old) (C.faults console.old) (C.empty_takes console.old))
        (sink_seen (C.taken console.new) (C.faults console.new) (C.empty_takes console.new))
        (sink_seen (R.taken report.old) (R.faults report.old) (R.empty_takes report.old))
        (sink_seen (R.taken report.new) (R.faults report.new) (R.empty_takes report.new)) }
{
    let turn = match answer {
        Ok(turn) => turn,
        Err(reason) => return Ok(Some(End::Outside { line, reason })),
    };
    match emit(console, report, &turn) {
        Ok(n) => *written += n,
        Err(_) => return Err(Failed),
    }
    match plant.halted() {
        Some(value) => Ok(Some(End::Halt(value))),
        None => Ok(None),
    }
}

/// Takes one act, with what it writes.
pub fn take_act<C: Sink, R: Sink>(
    plant: &mut Plant,
    act: &Act,
    line: u64,
    written: &mut u64,
    console: &mut C,
    report: &mut R,
) -> Result<Option<End>, Failed>
    requires running { plant.old.halt ≡ None }
    requires proper { IsProperEntry (Entry.One act.now) }
    requires events { plant.old.accepted < 2 ^ 60 }
    requires count { written.old < 2 ^ 62 }
    ensures ran { IfOk result (λ end. HasRun (step_run line plant.old (script_act act.now)) end plant.new written.old written.new
        (taken (C.taken console.old) (R.taken report.old)) (taken (C.taken console.new) (R.taken report.new))) }
    ensures cut { OnErr result (CutAtStage (step_run line plant.old (script_act act.now)).stages plant.new
        (taken (C.taken console.old) (R.taken report.old)) (taken (C.taken console.new) (R.taken report.new))) }
    ensures added { written.new ≤ written.old + 1 }
    ensures cause { WriteCause result
        (sink_seen (C.taken console.old) (C.faults console.old) (C.empty_takes console.old))
        (sink_seen (C.taken console.new) (C.faults console.new) (C.empty_takes console.new))
        (sink_seen (R.taken report.old) (R.faults report.old) (R.empty_takes report.old))
        (sink_seen (R.taken report.new) (R.faults report.new) (R.empty_takes report.new)) }
{
    let answer = plant.step(act);
    take_answer(plant, answer, line, written, console, report)
}

/// Takes so many ticks.
pub fn take_ticks<C: Sink, R: Sink>(
    plant: &mut Plant,
    mask: u8,
    n: u64,
    line: u64,
    written: &mut u64,
    console: &mut C,
    report: &mut R,
) -> Result<Option<End>, Failed>
    requires running { plant.old.halt ≡ None }
    requires mask { mask < 8 }
    requires room { plant.old.ticks + n ≤ TICK_LIMIT }
    requires count { written.old + n < 2 ^ 62 }
    ensures ran { IfOk result (λ end. HasRun (ticks_run line mask plant.old n) end plant.new written.old written.new
        (taken (C.taken console.old) (R.taken report.old)) (taken (C.taken console.new) (R.taken report.new))) }
    ensures cut { OnErr result (CutAtStage (ticks_run line mask plant.old n).stages plant.new
        (taken (C.taken console.old) (R.taken report.old)) (taken (C.taken console.new) (R.taken report.new))) }
    ensures went { IfOk result (λ end. TicksWentIf end plant.old plant.new n) }
    ensures added { written.new ≤ written.old + n }
    ensures cause { WriteCause result
        (sink_seen (C.taken console.old) (C.faults console.old) (C.empty_takes console.old))
        (sink_seen (C.taken console.new) (C.faults console.new) (C.empty_takes console.new))
        (sink_seen (R.taken report.old) (R.faults report.old) (R.empty_takes report.old))
        (sink_seen (R.taken report.new) (R.faults report.new) (R.empty_takes report.new)) }
{
    let mut left = n;
    while left > 0 {
        let run = plant.run_ticks(mask, left);
        left -= run.before + 1;
        match take_answer(plant, run.last, line, written, console, report) {
            Ok(None) => {}
            Ok(Some(end)) => return Ok(Some(end)),
            Err(Failed) => return Err(Failed),
        }
    }
    Ok(None)
}
