//! Local memory by a mapped page that the translation lookaside buffer remembers, so that neither the segments nor
//! the entries nor the map are gone through.

ghost use Rattle.std.specs.Prelude.{◌≡◌, ◌<◌, ◌*◌, ◌/◌, ◌%◌, ℕ, List, true, false, slice_index, Ok, IfSome};
ghost use Rattle.s2_base.specs.Map.{place_at};
ghost use Rattle.s2_cp0.specs.ControlRegisters.{is_interrupted};
ghost use Rattle.s2_cpu.specs.Translation.{translated};
ghost use Rattle.s2_machine.specs.LocalWork.{ask_of_step};
ghost use Rattle.s2_machine.specs.MemoryAccess.{access_of};
ghost use Rattle.s2_core.specs.TestOrder.{fetch_outcome, access_step, reached_step};
ghost use Rattle.s2_core.specs.Working.{is_local};

use crate::instruction_rows::interrupted;
use crate::kseg0::{accesses_near, near_fetch, near_index, quiet_fetch};
use crate::memory_access::access_of;
use crate::reach::{Reach, is_aligned};
use s2_base::{
    GLOBAL_END, GLOBAL_START, LOCAL_END, LOCAL_MEMORY_WORDS, Place, UNMAPPED_END, UNMAPPED_START,
};
use s2_cpu::{Access, Cpu};
use s2_decode::OpM;

/// The index of the word that is fetched next, where its page is remembered and it is of local memory.
#[inline(always)]
pub fn recalled_fetch(cpu: &Cpu) -> Option<u32>
    ensures within { IfSome result (λ i. i < LOCAL_MEMORY_WORDS) }
    ensures fetched { IfSome result (λ i. (local : List ℕ) → fetch_outcome cpu.now local ≡ Ok (slice_index local i)) }
{
    if cpu.pc % 4 != 0 {
        return None;
    }
    match cpu.recall(cpu.pc, Access::Fetch) {
        Some(pa) => { if pa < LOCAL_END { Some(pa / 4) } else { None } }
        None => None,
    }
}

/// The index of the word that a row loads or stores, where its page is remembered and it is of local memory.
#[inline(always)]
pub fn recalled_access(cpu: &Cpu, op: OpM, va: u32) -> Option<u32>
    ensures within { IfSome result (λ i. i < LOCAL_MEMORY_WORDS) }
    ensures reached { IfSome result (λ i. (rt : ℕ) → reached_step cpu.now op rt (va % 4) (Reach.At (i * 4) (Place.Local i))
        ≡ access_step cpu.now op rt va) }
{
    if !is_aligned(op, va) {
        return None;
    }
    if cpu.cp0.is_isolated() {
        return None;
    }
    match cpu.recall(va, access_of(op)) {
        Some(pa) => { if pa < LOCAL_END { Some(pa / 4) } else { None } }
        None => None,
    }
}

/// The index of the word that a row loads or stores, where it is of local memory, by kseg0 or by a page that is
/// remembered.
#[inline(always)]
pub fn local_access(cpu: &Cpu, op: OpM, va: u32) -> Option<u32>
    ensures within { IfSome result (λ i. i < LOCAL_MEMORY_WORDS) }
    ensures reached { IfSome result (λ i. (rt : ℕ) → reached_step cpu.now op rt (va % 4) (Reach.At (i * 4) (Place.Local i))
        ≡ access_step cpu.now op rt va) }
{
    if accesses_near(cpu, op, va) {
        return Some(near_index(va));
    }
    recalled_access(cpu, op, va)
}

/// The physical address of a virtual one, where no exception prevents the access and the translation lookaside buffer
/// remembers its page, if it has one.
#[inline(always)]
pub fn known_address(cpu: &Cpu, op: OpM, va: u32) -> Option<u32>
    ensures { IfSome result (λ pa. translated cpu.now va (access_of op) ≡ Ok pa) }
{
    if va < UNMAPPED_START {
        return cpu.recall(va, access_of(op));
    }
    if va < UNMAPPED_END && !cpu.cp0.is_user() {
        cpu.translate(va, access_of(op)).ok()
    } else {
        None
    }
}

/// Whether a physical address is one of global memory.
#[inline(always)]
fn is_global(pa: u32) -> bool
    ensures { result ≡ true → (i : ℕ) × (place_at (pa / 4 * 4) ≡ Place.Global i) }
{
    pa >= GLOBAL_START && pa < GLOBAL_END
}

/// Whether a row surely loads or stores a word of global memory.
#[inline(always)]
pub fn leaves(cpu: &Cpu, op: OpM, va: u32) -> bool
    ensures { result ≡ true → (rt : ℕ) → is_local (ask_of_step cpu.now (access_step cpu.now op rt va)) ≡ false }
{
    if !is_aligned(op, va) {
        return false;
    }
    if cpu.cp0.is_isolated() {
        return false;
    }
    match known_address(cpu, op, va) {
        Some(pa) => is_global(pa),
        None => false,
    }
}

/// The index of the word that is fetched next, where no interrupt is up and it is of local memory, by kseg0 or by a
/// page that is remembered.
#[inline(always)]
fn tested_fetch(cpu: &Cpu) -> Option<u32>
    ensures within { IfSome result (λ i. i < LOCAL_MEMORY_WORDS) }
    ensures running { IfSome result (λ i. is_interrupted cpu.now.cp0 cpu.now.lines ≡ false) }
    ensures fetched { IfSome result (λ i. (local : List ℕ) → fetch_outcome cpu.now local ≡ Ok (slice_index local i)) }
{
    if interrupted(cpu) {
        return None;
    }
    match near_fetch(cpu) {
        Some(index) => Some(index),
        None => recalled_fetch(cpu),
    }
}

/// The same; where interrupts are off, none is looked for.
#[inline(always)]
pub fn local_fetch(cpu: &Cpu) -> Option<u32>
    ensures within { IfSome result (λ i. i < LOCAL_MEMORY_WORDS) }
    ensures running { IfSome result (λ i. is_interrupted cpu.now.cp0 cpu.now.lines ≡ false) }
    ensures fetched { IfSome result (λ i. (local : List ℕ) → fetch_outcome cpu.now local ≡ Ok (slice_index local i)) }
{
    match quiet_fetch(cpu) {
        Some(index) => Some(index),
        None => tested_fetch(cpu),
    }
}
