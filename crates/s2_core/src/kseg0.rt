//! Local memory by kseg0 in kernel mode, in which most programs fetch, load and store: it is a whole mebibyte, so
//! one comparison tells it, without the segments and the map.

ghost use Rattle.std.specs.Prelude.{◌≡◌, ◌<◌, ◌≤◌, ◌-◌, ◌%◌, ◌/◌, ◌==◌, ◌&&◌, nat_lt, Some, None, if◌then◌else◌};
ghost use Rattle.s2_base.specs.declared.map.TheConstants.{LOCAL_END, LOCAL_MEMORY_WORDS, UNMAPPED_START};
ghost use Rattle.s2_core.specs.Kseg0.{is_local, is_near, near_index, fetches_near, fetches_quietly, accesses_near};

use crate::reach::is_aligned;
use s2_base::{LOCAL_END, LOCAL_MEMORY_WORDS, UNMAPPED_START};
use s2_cpu::Cpu;
use s2_decode::OpM;

/// Whether a virtual address is one of local memory in kseg0.
#[inline(always)]
fn is_local(va: u32) -> bool
    ensures { result ≡ is_local va }
{
    va / LOCAL_END == UNMAPPED_START / LOCAL_END
}

/// Whether the processor reaches local memory there.
#[inline(always)]
fn is_near(cpu: &Cpu, va: u32) -> bool
    ensures { result ≡ is_near cpu.now va }
{
    !cpu.cp0.is_user() && is_local(va)
}

/// The index of the word there.
#[inline(always)]
pub fn near_index(va: u32) -> u32
    requires from { UNMAPPED_START ≤ va }
    requires to { va - UNMAPPED_START < LOCAL_END }
    ensures index { result ≡ near_index va }
    ensures within { result < LOCAL_MEMORY_WORDS }
{
    (va - UNMAPPED_START) / 4
}

/// The index of the word that is fetched there; a number that no word has, where the address is another or no
/// multiple of 4. The last two bits of the address are the highest of the number, so one comparison tells all.
#[inline(always)]
fn fetched_index(va: u32) -> u64
    ensures tells { nat_lt result LOCAL_MEMORY_WORDS ≡ ((va % 4 == 0) && is_local va) }
    ensures index { result < LOCAL_MEMORY_WORDS → result ≡ near_index va }
{
    let turned = va as u64 / 4 + va as u64 % 4 * 0x4000_0000_0000_0000;
    turned.wrapping_sub(UNMAPPED_START as u64 / 4)
}

/// Whether Status has none of IEc, KUc and IsC, as most of the time: one sum, so one test of the bits.
#[inline(always)]
fn is_quiet(status: u32) -> bool
    ensures { result ≡ ((status % 4 == 0) && (status / 0x10000 % 2 == 0)) }
{
    status % 4 + status / 0x0001_0000 % 2 * 0x0001_0000 == 0
}

/// The index of the word that is fetched next, where that is of local memory by kseg0.
#[inline(always)]
pub fn near_fetch(cpu: &Cpu) -> Option<u32>
    ensures { result ≡ (if fetches_near cpu.now then Some (near_index cpu.now.pc) else None) }
{
    let index = fetched_index(cpu.pc);
    if !cpu.cp0.is_user() && index < LOCAL_MEMORY_WORDS as u64 {
        Some(index as u32)
    } else {
        None
    }
}

/// The same where interrupts are off and the data cache is not isolated.
#[inline(always)]
pub fn quiet_fetch(cpu: &Cpu) -> Option<u32>
    ensures { result ≡ (if fetches_quietly cpu.now then Some (near_index cpu.now.pc) else None) }
{
    let index = fetched_index(cpu.pc);
    if is_quiet(cpu.cp0.status) && index < LOCAL_MEMORY_WORDS as u64 {
        Some(index as u32)
    } else {
        None
    }
}

/// Whether a row loads or stores a word there.
#[inline(always)]
pub fn accesses_near(cpu: &Cpu, op: OpM, va: u32) -> bool
    ensures { result ≡ accesses_near cpu.now op va }
{
    is_aligned(op, va) && !cpu.cp0.is_isolated() && is_near(cpu, va)
}
