//! The loads and stores, carried out directly where they ask nothing. Each function says whether it was.

ghost use Rattle.std.specs.Prelude.{◌≡◌, ◌<◌, ◌*◌, ◌%◌, ℕ, Bool, true, List, length};
ghost use Rattle.s2_machine.specs.MemoryAccess.{effective_address};
ghost use Rattle.s2_machine.specs.StepRanges.{IsPlaced};
ghost use Rattle.s2_core.specs.TestOrder.{isolated_step, access_step, reached_step};
ghost use Rattle.s2_core.specs.Working.{IsCarriedOut, IsReach};

use crate::local_work::store_word;
use crate::memory_access::{access_of, stored_mask, stored_word};
use crate::reach::{Reach, effective_address, reach_virtual};
use crate::recalled::{leaves, local_access};
use crate::write_back::{follow, load, raised};
use s2_base::{LOCAL_MEMORY_WORDS, LOCAL_WORDS, Place};
use s2_cpu::Cpu;
use s2_decode::OpM;
use s2_machine::Step;
use s2_store::Store;

/// A load of a word at a place, where that asks nothing.
#[inline(always)]
pub fn load_at<S: Store>(
    cpu: &mut Cpu,
    store: &mut S,
    op: OpM,
    rt: u8,
    byte: u8,
    place: Place,
) -> bool
    requires rt { rt < 32 }
    requires byte { byte < 4 }
    requires place { IsPlaced place }
    requires words { length (S.words store.now) ≡ LOCAL_WORDS }
    ensures done { (address : ℕ) → IsCarriedOut cpu.old (S.words store.old) (S.marks store.old)
        (Step.Load op rt byte address place) result
        cpu.new (S.words store.new) (S.marks store.new) }
    ensures words { S.words store.new ≡ S.words store.old }
    ensures rest { S.rest store.new ≡ S.rest store.old }
{
    match place {
        Place::Local(i) | Place::Boot(i) => load(cpu, op, rt, byte, store.word(i)),
        Place::Nowhere => load(cpu, op, rt, byte, 0),
        Place::Global(_) | Place::Device(_) => return false,
    }
    true
}

/// A store of the masked bytes of a word at a place, where that asks nothing.
#[inline(always)]
pub fn store_at<S: Store>(cpu: &mut Cpu, store: &mut S, word: u32, mask: u8, place: Place) -> bool
    requires mask { mask < 16 }
    requires place { IsPlaced place }
    requires words { length (S.words store.now) ≡ LOCAL_WORDS }
    ensures done { (address : ℕ) → IsCarriedOut cpu.old (S.words store.old) (S.marks store.old)
        (Step.Store word mask address place) result
        cpu.new (S.words store.new) (S.marks store.new) }
    ensures size { length (S.words store.new) ≡ length (S.words store.old) }
    ensures rest { S.rest store.new ≡ S.rest store.old }
{
    match place {
        Place::Local(i) => {
            store_word(store, i, word, mask);
            follow(cpu);
        }
        Place::Boot(_) | Place::Nowhere => follow(cpu),
        Place::Global(_) | Place::Device(_) => return false,
    }
    true
}

/// A load or store at a place that serves it.
#[inline(always)]
fn access_at<S: Store>(
    cpu: &mut Cpu,
    store: &mut S,
    op: OpM,
    rt: u8,
    byte: u8,
    place: Place,
) -> bool
    requires rt { rt < 32 }
    requires byte { byte < 4 }
    requires place { IsPlaced place }
    requires words { length (S.words store.now) ≡ LOCAL_WORDS }
    ensures done { (address : ℕ) → IsCarriedOut cpu.old (S.words store.old) (S.marks store.old)
        (reached_step cpu.old op rt byte (Reach.At address place)) result
        cpu.new (S.words store.new) (S.marks store.new) }
    ensures size { length (S.words store.new) ≡ length (S.words store.old) }
    ensures rest { S.rest store.new ≡ S.rest store.old }
{
    if access_of(op).is_store() {
        let word = stored_word(op, byte, cpu.r.get(rt));
        store_at(cpu, store, word, stored_mask(op, byte), place)
    } else {
        load_at(cpu, store, op, rt, byte, place)
    }
}

/// A load or store of the isolated data cache.
#[cold]
#[inline(never)]
fn access_isolated(cpu: &mut Cpu, op: OpM, rt: u8, byte: u8) -> bool
    requires rt { rt < 32 }
    requires byte { byte < 4 }
    ensures { (local : List ℕ) (marks : List Bool)
        → IsCarriedOut cpu.old local marks (isolated_step cpu.old op rt byte) result cpu.new local marks }
{
    if access_of(op).is_store() {
        follow(cpu);
    } else {
        load(cpu, op, rt, byte, 0);
    }
    true
}

/// A load or store, by what it reaches.
#[inline(always)]
fn access_reached<S: Store>(
    cpu: &mut Cpu,
    store: &mut S,
    op: OpM,
    rt: u8,
    byte: u8,
    reach: Reach,
) -> bool
    requires rt { rt < 32 }
    requires byte { byte < 4 }
    requires reach { IsReach reach }
    requires words { length (S.words store.now) ≡ LOCAL_WORDS }
    ensures done { IsCarriedOut cpu.old (S.words store.old) (S.marks store.old) (reached_step cpu.old op rt byte reach) result
        cpu.new (S.words store.new) (S.marks store.new) }
    ensures size { length (S.words store.new) ≡ length (S.words store.old) }
    ensures rest { S.rest store.new ≡ S.rest store.old }
{
    match reach {
        Reach::Refused(exc) => raised(cpu, exc),
        Reach::Isolated => access_isolated(cpu, op, rt, byte),
        Reach::At { place, .. } => access_at(cpu, store, op, rt, byte, place),
    }
}

/// A load or store of the word of local memory at this index.
#[inline(always)]
fn access_recalled<S: Store>(
    cpu: &mut Cpu,
    store: &mut S,
    op: OpM,
    rt: u8,
    va: u32,
    index: u32,
) -> bool
    requires index { index < LOCAL_MEMORY_WORDS }
    requires reached { reached_step cpu.old op rt (va % 4) (Reach.At (index * 4) (Place.Local index)) ≡ access_step cpu.old op rt va }
    requires rt { rt < 32 }
    requires words { length (S.words store.now) ≡ LOCAL_WORDS }
    ensures done { IsCarriedOut cpu.old (S.words store.old) (S.marks store.old) (access_step cpu.old op rt va) result
        cpu.new (S.words store.new) (S.marks store.new) }
    ensures size { length (S.words store.new) ≡ length (S.words store.old) }
    ensures rest { S.rest store.new ≡ S.rest store.old }
{
    access_at(cpu, store, op, rt, (va % 4) as u8, Place::Local(index))
}

/// A load or store, whatever it reaches; its page is remembered.
#[cold]
#[inline(never)]
fn access_found<S: Store>(cpu: &mut Cpu, store: &mut S, op: OpM, rt: u8, va: u32) -> bool
    requires rt { rt < 32 }
    requires words { length (S.words store.now) ≡ LOCAL_WORDS }
    ensures done { IsCarriedOut cpu.old (S.words store.old) (S.marks store.old) (access_step cpu.old op rt va) result
        cpu.new (S.words store.new) (S.marks store.new) }
    ensures size { length (S.words store.new) ≡ length (S.words store.old) }
    ensures rest { S.rest store.new ≡ S.rest store.old }
{
    cpu.remember(va);
    access_anywhere(cpu, store, op, rt, va)
}

/// A load or store that is not one of local memory by kseg0 or by a page that is remembered.
#[cold]
#[inline(never)]
fn access_mapped<S: Store>(cpu: &mut Cpu, store: &mut S, op: OpM, rt: u8, va: u32) -> bool
    requires rt { rt < 32 }
    requires words { length (S.words store.now) ≡ LOCAL_WORDS }
    ensures done { IsCarriedOut cpu.old (S.words store.old) (S.marks store.old) (access_step cpu.old op rt va) result
        cpu.new (S.words store.new) (S.marks store.new) }
    ensures size { length (S.words store.new) ≡ length (S.words store.old) }
    ensures rest { S.rest store.new ≡ S.rest store.old }
{
    if leaves(cpu, op, va) {
        false
    } else {
        access_found(cpu, store, op, rt, va)
    }
}

/// A load or store, whatever it reaches.
#[inline(always)]
fn access_anywhere<S: Store>(cpu: &mut Cpu, store: &mut S, op: OpM, rt: u8, va: u32) -> bool
    requires rt { rt < 32 }
    requires words { length (S.words store.now) ≡ LOCAL_WORDS }
    ensures done { IsCarriedOut cpu.old (S.words store.old) (S.marks store.old) (access_step cpu.old op rt va) result
        cpu.new (S.words store.new) (S.marks store.new) }
    ensures size { length (S.words store.new) ≡ length (S.words store.old) }
    ensures rest { S.rest store.new ≡ S.rest store.old }
{
    let reach = reach_virtual(cpu, op, va);
    access_reached(cpu, store, op, rt, (va % 4) as u8, reach)
}

/// A load or store at a virtual address.
#[inline(always)]
fn access_virtual<S: Store>(cpu: &mut Cpu, store: &mut S, op: OpM, rt: u8, va: u32) -> bool
    requires rt { rt < 32 }
    requires words { length (S.words store.now) ≡ LOCAL_WORDS }
    ensures done { IsCarriedOut cpu.old (S.words store.old) (S.marks store.old) (access_step cpu.old op rt va) result
        cpu.new (S.words store.new) (S.marks store.new) }
    ensures size { length (S.words store.new) ≡ length (S.words store.old) }
    ensures rest { S.rest store.new ≡ S.rest store.old }
{
    if let Some(index) = local_access(cpu, op, va) {
        access_recalled(cpu, store, op, rt, va, index)
    } else {
        access_mapped(cpu, store, op, rt, va)
    }
}

/// The row of a load or store.
#[inline(always)]
pub fn access_memory<S: Store>(
    cpu: &mut Cpu,
    store: &mut S,
    op: OpM,
    rt: u8,
    base: u8,
    off: u16,
) -> bool
    requires rt { rt < 32 }
    requires base { base < 32 }
    requires words { length (S.words store.now) ≡ LOCAL_WORDS }
    ensures done { IsCarriedOut cpu.old (S.words store.old) (S.marks store.old)
        (access_step cpu.old op rt (effective_address cpu.old base off)) result
        cpu.new (S.words store.new) (S.marks store.new) }
    ensures size { length (S.words store.new) ≡ length (S.words store.old) }
    ensures rest { S.rest store.new ≡ S.rest store.old }
{
    let va = effective_address(cpu, base, off);
    access_virtual(cpu, store, op, rt, va)
}
