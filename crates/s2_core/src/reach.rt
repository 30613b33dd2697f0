//! What a load or store reaches: alignment, translation, isolation, place.

ghost use Rattle.std.specs.Prelude.{◌≡◌, ◌<◌, ◌%◌, ℕ};
ghost use Rattle.s2_base.specs.Map.{place_at};
ghost use Rattle.s2_cpu.specs.Processor.{Processor};
ghost use Rattle.s2_machine.specs.MemoryAccess.{is_aligned, refuses, effective_address};
ghost use Rattle.s2_machine.specs.StepRanges.{IsPlaced};
ghost use Rattle.s2_core.specs.TestOrder.{placed_step, addressed_step, access_step, reached_step};
ghost use Rattle.s2_core.specs.Working.{IsReach};

use crate::memory_access::access_of;
use s2_base::{Place, place, sext16};
use s2_cp0::DBE;
use s2_cpu::{Cpu, Exc};
use s2_decode::OpM;

/// What a load or store reaches.
#[derive(Debug, Clone, Copy, PartialEq, Eq)]
pub enum Reach {
    /// Nothing: an exception prevents it.
    Refused(Exc),
    /// The isolated data cache.
    Isolated,
    /// A word, by its physical address and its place, which serves the row.
    At { address: u32, place: Place },
}

/// Whether an address is one that a row can access.
#[inline(always)]
pub fn is_aligned(op: OpM, va: u32) -> bool
    ensures { result ≡ is_aligned op va }
{
    match op {
        OpM::Lh | OpM::Lhu | OpM::Sh => va % 2 == 0,
        OpM::Lw | OpM::Sw => va % 4 == 0,
        _ => true,
    }
}

/// Whether a place does not serve a row: no store to the boot store, no access to nothing, and to a device by
/// LW and SW alone.
#[inline(always)]
fn refuses(place: Place, op: OpM) -> bool
    ensures { result ≡ refuses place op }
{
    match place {
        Place::Local(_) | Place::Global(_) => false,
        Place::Boot(_) => access_of(op).is_store(),
        Place::Device(_) => !matches!(op, OpM::Lw | OpM::Sw),
        Place::Nowhere => true,
    }
}

/// The place of a physical address, whose index is within its list.
#[inline(always)]
fn placed(pa: u32) -> Place
    ensures place { result ≡ place_at pa }
    ensures within { IsPlaced result }
{
    let place = place(pa);
    match place {
        Place::Local(_) => place,
        Place::Boot(_) => place,
        Place::Global(_) => place,
        Place::Device(_) => place,
        Place::Nowhere => place,
    }
}

/// What a row reaches at a place.
#[inline(always)]
fn reach_place(op: OpM, address: u32, place: Place) -> Reach
    requires { IsPlaced place }
    ensures step { (p : Processor) (rt byte : ℕ) → reached_step p op rt byte result ≡ placed_step p op rt byte address place }
    ensures sound { IsReach result }
{
    if refuses(place, op) {
        Reach::Refused(Exc::plain(DBE))
    } else {
        Reach::At { address, place }
    }
}

/// What a row reaches at a physical address.
#[inline(always)]
pub fn reach_address(cpu: &Cpu, op: OpM, pa: u32) -> Reach
    ensures step { (rt byte : ℕ) → reached_step cpu.now op rt byte result ≡ addressed_step cpu.now op rt byte pa }
    ensures sound { IsReach result }
{
    if cpu.cp0.is_isolated() {
        return Reach::Isolated;
    }
    let address = pa / 4 * 4;
    reach_place(op, address, placed(address))
}

/// What a row reaches at a virtual address.
#[inline(always)]
pub fn reach_virtual(cpu: &Cpu, op: OpM, va: u32) -> Reach
    ensures step { (rt : ℕ) → reached_step cpu.now op rt (va % 4) result ≡ access_step cpu.now op rt va }
    ensures sound { IsReach result }
{
    if !is_aligned(op, va) {
        return Reach::Refused(Exc::address_error(access_of(op), va));
    }
    match cpu.translate(va, access_of(op)) {
        Ok(pa) => reach_address(cpu, op, pa),
        Err(exc) => Reach::Refused(exc),
    }
}

/// The virtual address of a load or store.
#[inline(always)]
pub fn effective_address(cpu: &Cpu, base: u8, off: u16) -> u32
    requires { base < 32 }
    ensures { result ≡ effective_address cpu.now base off }
{
    cpu.r.get(base).wrapping_add(sext16(off as u32))
}
