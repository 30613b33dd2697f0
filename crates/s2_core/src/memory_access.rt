//! The loads and stores: their values, and the step of a row.

ghost use Rattle.std.specs.Prelude.{◌≡◌, ◌<◌};
ghost use Rattle.s2_base.specs.Words.{byte_at};
ghost use Rattle.s2_machine.specs.MemoryAccess.{access_of, half_at_byte, loaded_value, merge_base, stored_word, stored_mask, effective_address};
ghost use Rattle.s2_machine.specs.StepRanges.{IsSound};
ghost use Rattle.s2_core.specs.TestOrder.{isolated_step, access_step, reached_step};
ghost use Rattle.s2_core.specs.Working.{IsReach};

use crate::reach::{Reach, effective_address, reach_virtual};
use s2_base::{merge_left, merge_right, sext8, sext16};
use s2_cpu::{Access, Cpu};
use s2_decode::OpM;
use s2_machine::Step;

/// Whether a row loads or stores.
#[inline(always)]
pub fn access_of(op: OpM) -> Access
    ensures { result ≡ access_of op }
{
    match op {
        OpM::Lb | OpM::Lh | OpM::Lwl | OpM::Lw | OpM::Lbu | OpM::Lhu | OpM::Lwr => Access::Load,
        OpM::Sb | OpM::Sh | OpM::Swl | OpM::Sw | OpM::Swr => Access::Store,
    }
}

/// Byte `byte`, below 4, of a word.
#[inline(always)]
fn byte_of(word: u32, byte: u8) -> u32
    requires { byte < 4 }
    ensures { result ≡ byte_at word byte }
{
    (word >> (24 - 8 * byte)) % 256
}

/// The half word at byte 0 or 2 of a word.
#[inline(always)]
fn half_of(word: u32, byte: u8) -> u32
    ensures { result ≡ half_at_byte word byte }
{
    if byte == 0 {
        word / 65536
    } else {
        word % 65536
    }
}

/// What a load makes of a word, of which the address names the byte `byte`, below 4, over the old word of its
/// register.
#[inline(always)]
pub fn loaded_value(op: OpM, byte: u8, old: u32, word: u32) -> u32
    requires { byte < 4 }
    ensures { result ≡ loaded_value op byte old word }
{
    match op {
        OpM::Lb => sext8(byte_of(word, byte)),
        OpM::Lbu => byte_of(word, byte),
        OpM::Lh => sext16(half_of(word, byte)),
        OpM::Lhu => half_of(word, byte),
        OpM::Lwl => merge_left(word, old, byte as u32),
        OpM::Lwr => merge_right(word, old, byte as u32),
        _ => word,
    }
}

/// The old word of LWL and LWR: where a load of the register is pending, the word of that load.
#[inline(always)]
pub fn merge_base(cpu: &Cpu, reg: u8) -> u32
    requires { reg < 32 }
    ensures { result ≡ merge_base cpu.now reg }
{
    if cpu.load_reg == reg && reg != 0 {
        cpu.load_value
    } else {
        cpu.r.get(reg)
    }
}

/// The bytes that a store stores, in their places, and 0 elsewhere.
#[inline(always)]
pub fn stored_word(op: OpM, byte: u8, t: u32) -> u32
    requires { byte < 4 }
    ensures { result ≡ stored_word op byte t }
{
    match op {
        OpM::Sb => (t % 256) << (24 - 8 * byte),
        OpM::Sh => half_in_place(byte, t),
        OpM::Swl => t >> (8 * byte),
        OpM::Swr => t << (24 - 8 * byte),
        _ => t,
    }
}

/// The low half of a word, at byte 0 or 2.
#[inline(always)]
fn half_in_place(byte: u8, t: u32) -> u32
    ensures { result ≡ stored_word OpM.Sh byte t }
{
    if byte == 0 {
        t % 65536 * 65536
    } else {
        t % 65536
    }
}

/// The mask of a store's bytes: bit 3 stands for the byte at the lowest address.
#[inline(always)]
pub fn stored_mask(op: OpM, byte: u8) -> u8
    requires { byte < 4 }
    ensures mask { result ≡ stored_mask op byte }
    ensures below { result < 16 }
{
    match op {
        OpM::Sb => 8 >> byte,
        OpM::Sh => if byte == 0 { 12 } else { 3 },
        OpM::Swl => 15 >> byte,
        OpM::Swr => (15 << (3 - byte)) % 16,
        _ => 15,
    }
}

/// A load or store where the data cache is isolated: a load reads the word 0, a store changes nothing.
fn isolated(cpu: &Cpu, op: OpM, rt: u8, byte: u8) -> Step
    requires rt { rt < 32 }
    requires byte { byte < 4 }
    ensures step { result ≡ isolated_step cpu.now op rt byte }
    ensures sound { IsSound result }
{
    if access_of(op).is_store() {
        Step::Proceed
    } else {
        Step::Delay {
            reg: rt,
            value: loaded_value(op, byte, merge_base(cpu, rt), 0),
        }
    }
}

/// The step of a row, by what it reaches.
#[inline(always)]
pub fn reached_step(cpu: &Cpu, op: OpM, rt: u8, byte: u8, reach: Reach) -> Step
    requires rt { rt < 32 }
    requires byte { byte < 4 }
    requires reach { IsReach reach }
    ensures step { result ≡ reached_step cpu.now op rt byte reach }
    ensures sound { IsSound result }
{
    match reach {
        Reach::Refused(exc) => Step::Raise(exc),
        Reach::Isolated => isolated(cpu, op, rt, byte),
        Reach::At { address, place } => {
            if access_of(op).is_store() {
                Step::Store {
                    word: stored_word(op, byte, cpu.r.get(rt)),
                    mask: stored_mask(op, byte),
                    address,
                    place,
                }
            } else {
                Step::Load {
                    op,
                    reg: rt,
                    byte,
                    address,
                    place,
                }
            }
        }
    }
}

/// The row of a load or store.
pub fn access_memory(cpu: &Cpu, op: OpM, rt: u8, base: u8, off: u16) -> Step
    requires rt { rt < 32 }
    requires base { base < 32 }
    ensures step { result ≡ access_step cpu.now op rt (effective_address cpu.now base off) }
    ensures sound { IsSound result }
{
    let va = effective_address(cpu, base, off);
    reached_step(cpu, op, rt, (va % 4) as u8, reach_virtual(cpu, op, va))
}
