//! A workload is made.

ghost use Rattle.std.specs.Prelude.{◌≡◌, ◌+◌, ◌<◌, ◌≤◌, ◌⊎◌, ℕ, Some, IfOk, length, slice_get, slice_index};
ghost use Rattle.s2_decode.specs.declared.instr.Instr.{Instr};
ghost use Rattle.s2_gen.specs.declared.program.TheConstants.{FIRST_WORD};
ghost use Rattle.s2_gen.specs.declared.workloads.TheConstants.{WORKLOADS};
ghost use Rattle.s2_gen.specs.ProgramImage.{IsWordOf, IsWorkloadImage, AreProper};
ghost use Rattle.s2_gen.specs.WorkloadScript.{workload_entries, workload_lines, AreSaid};

use crate::Workload;
use crate::program::{FIRST_WORD, START, program};
use crate::script::script;
use s2_base::Memory;
use s2_decode::{Instr, encode};
use s2_elf::blank;
use std::alloc::Global;

/// Workload `n`, from 1 on: its program in memory, and what the lines of its script say.
///
/// `Memory` where the room for one of the lists was refused. Source: the workloads are this project's own
/// (`docs/FORMATS.md`).
pub fn workload(alloc: Global, n: u32) -> Result<Workload, Memory>
    requires from_one { 1 ≤ n }
    requires known { n ≤ WORKLOADS }
    ensures image { IfOk result (λ w. IsWorkloadImage n w.image) }
    ensures entries { IfOk result (λ w. w.entries.items ≡ workload_entries) }
    ensures lines { IfOk result (λ w. AreSaid w.entries.items workload_lines) }
{
    let mut image = blank(alloc, START)?;
    lay(image.local.as_mut_slice(), &program(n));
    let entries = script(alloc)?;
    Ok(Workload { image, entries })
}

/// Lays the words of instructions over a list, from the program's first word on.
fn lay(words: &mut [u32], code: &[Instr])
    requires room { FIRST_WORD + length code.now ≤ length words.old }
    requires proper { AreProper code.now }
    ensures code { (i : ℕ) (instr : Instr) → slice_get code.now i ≡ Some instr
        → IsWordOf instr (slice_index words.new (FIRST_WORD + i)) }
    ensures others { (i : ℕ) → (i < FIRST_WORD) ⊎ (FIRST_WORD + length code.now ≤ i)
        → slice_index words.new i ≡ slice_index words.old i }
{
    for (i, instr) in code.iter().enumerate() {
        words[FIRST_WORD as usize + i] = encode(instr);
    }
}
