//! Cycles of a program on the single machine, with its console bytes.

ghost use Rattle.std.specs.Prelude.{◌≡◌, ◌<◌, None, IfOk, IfErr, OnOk, length};
ghost use Rattle.s2_machine.specs.MachineRun.{bytes_of};
ghost use Rattle.s2_io.specs.Sinks.{appended};
ghost use Rattle.s2_run.specs.SentPieces.{sent, SinkCause};
ghost use Rattle.s2_run.specs.Execution.{run_within};

use crate::output::{Cut, put};
use s2_io::Sink;
use s2_single::Single;

/// Writes the console byte of a cycle, if there is one, and counts it.
fn emit<C: Sink>(console: &mut C, out: Option<u8>) -> Result<u64, Cut>
    ensures bytes { C.taken console.new
        ≡ appended (C.taken console.old) (sent result (bytes_of out)) }
    ensures count { IfOk result (λ n. n ≡ length (bytes_of out)) }
    ensures cut { IfErr result (λ e. (e.taken ≡ 0) × (0 < length (bytes_of out))) }
    ensures cause { SinkCause result (C.faults console.old) (C.faults console.new)
        (C.empty_takes console.old) (C.empty_takes console.new) }
{
    match out {
        None => Ok(0),
        Some(byte) => match put(console, &[byte]) {
            Ok(()) => Ok(1),
            Err(cut) => Err(cut),
        },
    }
}

/// Runs at most `limit` cycles, to a halt, and counts the bytes that went to the console.
pub fn run_cycles<C: Sink>(machine: &mut Single, limit: u64, console: &mut C) -> Result<u64, Cut>
    requires { machine.old.halt ≡ None }
    ensures bytes { C.taken console.new
        ≡ appended (C.taken console.old) (sent result (run_within machine.old limit).bytes) }
    ensures machine { OnOk result (machine.new ≡ (run_within machine.old limit).machine) }
    ensures count { IfOk result (λ n. n ≡ length (run_within machine.old limit).bytes) }
    ensures cut { IfErr result (λ e. e.taken < length (run_within machine.old limit).bytes) }
    ensures cause { SinkCause result (C.faults console.old) (C.faults console.new)
        (C.empty_takes console.old) (C.empty_takes console.new) }
{
    let mut written = 0u64;
    let mut left = limit;
    while left > 0 {
        let burst = machine.burst(left);
        left = burst.left;
        match emit(console, burst.out) {
            Ok(n) => written += n,
            Err(_) => {
                return Err(Cut {
                    taken: written as usize,
                });
            }
        }
        if machine.halted().is_some() {
            return Ok(written);
        }
    }
    Ok(written)
}
