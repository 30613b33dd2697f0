//! The script of a workload. It is this project's own.

ghost use Rattle.std.specs.Prelude.{◌≡◌, IfOk};
ghost use Rattle.s2_gen.specs.WorkloadScript.{workload_entries, workload_lines, AreSaid};

use s2_base::Memory;
use s2_script::{Act, Entry};
use std::alloc::Global;

/// The mask under which all three processors fire.
pub const ALL: u8 = 7;

/// How many ticks pass before the fault, and then before the repair.
pub const TICKS_BEFORE: u64 = 5000;

/// How many ticks pass at most after the repair has begun.
pub const TICKS_AFTER: u64 = 10_000_000;

/// The processor that fails, and the saved word that is poked: its general register 18, which the program
/// holds the multiplier in.
pub const FAULTY: u8 = 1;

pub const POKED_WORD: u8 = 18;

/// What the lines of the script say.
pub fn script(alloc: Global) -> Result<Vec<Entry>, Memory>
    ensures entries { IfOk result (λ v. v.items ≡ workload_entries) }
    ensures lines { IfOk result (λ v. AreSaid v.items workload_lines) }
{
    let poke = Act::Poke {
        p: FAULTY,
        k: POKED_WORD,
        v: 0,
    };
    let wait = ticks(TICKS_BEFORE);
    let fault = Entry::One(poke);
    let repair = Entry::One(Act::Revive { p: FAULTY });
    let entries = [wait, fault, wait, repair, ticks(TICKS_AFTER)];
    Vec::from_array(alloc, entries).map_err(|_| Memory)
}

/// So many ticks of all three clocks.
fn ticks(n: u64) -> Entry
    ensures { result ≡ Entry.Ticks ALL n }
{
    Entry::Ticks { mask: ALL, n }
}
