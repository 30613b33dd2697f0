//! A cycle carried out at once, where it asks nothing of the outside; where it asks, nothing changes. Each function
//! says whether it was carried out.

ghost use Rattle.std.specs.Prelude.{◌≡◌, ◌<◌, true, length, slice_index, Ok, IfErr};
ghost use Rattle.s2_cpu.specs.Exceptions.{IsException};
ghost use Rattle.s2_decode.specs.Properness.{IsProper};
ghost use Rattle.s2_decode.specs.Table.{decoded};
ghost use Rattle.s2_machine.specs.InstructionRows.{step_of_instruction, step_of};
ghost use Rattle.s2_machine.specs.StepRanges.{IsSound};
ghost use Rattle.s2_core.specs.Kseg0.{fetches_near, near_index};
ghost use Rattle.s2_core.specs.TestOrder.{fetch_outcome, step_of_fetch};
ghost use Rattle.s2_core.specs.Working.{IsCarriedOut};

use crate::branches::link_of;
use crate::direct_access::{access_memory, load_at, store_at};
use crate::direct_rows::{branch, computed, jump, jump_to_register, set_or_overflow};
use crate::fetch::fetch;
use crate::instruction_rows::{execute, interrupted};
use crate::kseg0::near_fetch;
use crate::recalled::{local_fetch, recalled_fetch};
use crate::write_back::{raised, write_back};
use s2_base::{LOCAL_MEMORY_WORDS, LOCAL_WORDS};
use s2_cp0::INT;
use s2_cpu::{Cpu, Exc};
use s2_decode::{Instr, decode, fields};
use s2_machine::Step;
use s2_store::Store;

/// Any step.
fn carry_out<S: Store>(cpu: &mut Cpu, store: &mut S, step: Step) -> bool
    requires sound { IsSound step }
    requires words { length (S.words store.now) ≡ LOCAL_WORDS }
    ensures done { IsCarriedOut cpu.old (S.words store.old) (S.marks store.old) step result
        cpu.new (S.words store.new) (S.marks store.new) }
    ensures size { length (S.words store.new) ≡ length (S.words store.old) }
    ensures rest { S.rest store.new ≡ S.rest store.old }
{
    match step {
        Step::Load {
            op,
            reg,
            byte,
            place,
            ..
        } => load_at(cpu, store, op, reg, byte, place),
        Step::Store {
            word,
            mask,
            place,
            ..
        } => store_at(cpu, store, word, mask, place),
        _ => {
            write_back(cpu, step, 0);
            true
        }
    }
}

/// The instruction of any word, by its step.
#[cold]
#[inline(never)]
fn carry_out_step<S: Store>(cpu: &mut Cpu, store: &mut S, word: u32) -> bool
    requires { length (S.words store.now) ≡ LOCAL_WORDS }
    ensures done { IsCarriedOut cpu.old (S.words store.old) (S.marks store.old) (step_of_instruction cpu.old (decoded word)) result
        cpu.new (S.words store.new) (S.marks store.new) }
    ensures size { length (S.words store.new) ≡ length (S.words store.old) }
    ensures rest { S.rest store.new ≡ S.rest store.old }
{
    let step = execute(cpu, decode(word));
    carry_out(cpu, store, step)
}

/// The instruction of a word that does more than set a register: directly where its row is one that programs use
/// most.
#[inline(always)]
fn carry_out_other<S: Store>(cpu: &mut Cpu, store: &mut S, instr: Instr, word: u32) -> bool
    requires instr { instr ≡ decoded word }
    requires proper { IsProper instr }
    requires words { length (S.words store.now) ≡ LOCAL_WORDS }
    ensures done { IsCarriedOut cpu.old (S.words store.old) (S.marks store.old) (step_of_instruction cpu.old instr) result
        cpu.new (S.words store.new) (S.marks store.new) }
    ensures size { length (S.words store.new) ≡ length (S.words store.old) }
    ensures rest { S.rest store.new ≡ S.rest store.old }
{
    match instr {
        Instr::Jump { link, .. } => jump(cpu, link, fields::target(word)),
        Instr::JumpReg { .. } => jump_to_register(cpu, fields::rs(word)),
        Instr::Branch { op, rt, .. } if link_of(op) == 0 => branch(
            cpu,
            op,
            fields::rs(word),
            rt,
            fields::immediate(word),
        ),
        Instr::Memory { op, .. } => {
            access_memory(
                cpu,
                store,
                op,
                fields::rt(word),
                fields::rs(word),
                fields::immediate(word),
            )
        }
        _ => carry_out_step(cpu, store, word),
    }
}

/// The instruction of a word.
#[inline(always)]
fn carry_out_row<S: Store>(cpu: &mut Cpu, store: &mut S, word: u32) -> bool
    requires { length (S.words store.now) ≡ LOCAL_WORDS }
    ensures done { IsCarriedOut cpu.old (S.words store.old) (S.marks store.old) (step_of_instruction cpu.old (decoded word)) result
        cpu.new (S.words store.new) (S.marks store.new) }
    ensures size { length (S.words store.new) ≡ length (S.words store.old) }
    ensures rest { S.rest store.new ≡ S.rest store.old }
{
    let instr = decode(word);
    match computed(cpu, instr, word) {
        Some((reg, value)) => set_or_overflow(cpu, reg, value),
        None => carry_out_other(cpu, store, instr, word),
    }
}

/// What was fetched.
#[inline(always)]
fn carry_out_fetched<S: Store>(cpu: &mut Cpu, store: &mut S, word: Result<u32, Exc>) -> bool
    requires fetched { IfErr word IsException }
    requires words { length (S.words store.now) ≡ LOCAL_WORDS }
    ensures done { IsCarriedOut cpu.old (S.words store.old) (S.marks store.old) (step_of_fetch cpu.old word) result
        cpu.new (S.words store.new) (S.marks store.new) }
    ensures size { length (S.words store.new) ≡ length (S.words store.old) }
    ensures rest { S.rest store.new ≡ S.rest store.old }
{
    match word {
        Ok(word) => carry_out_row(cpu, store, word),
        Err(exc) => raised(cpu, exc),
    }
}

/// The next cycle, whose instruction is fetched from local memory by kseg0: from the word at this index.
#[inline(always)]
fn carry_out_near<S: Store>(cpu: &mut Cpu, store: &mut S, index: u32) -> bool
    requires near { fetches_near cpu.old ≡ true }
    requires index { index ≡ near_index cpu.old.pc }
    requires words { length (S.words store.now) ≡ LOCAL_WORDS }
    ensures done { IsCarriedOut cpu.old (S.words store.old) (S.marks store.old)
        (step_of_fetch cpu.old (fetch_outcome cpu.old (S.words store.old))) result
        cpu.new (S.words store.new) (S.marks store.new) }
    ensures size { length (S.words store.new) ≡ length (S.words store.old) }
    ensures rest { S.rest store.new ≡ S.rest store.old }
{
    let word = store.word(index);
    carry_out_row(cpu, store, word)
}

/// The next cycle, whose instruction is fetched from the word of local memory at this index.
#[inline(always)]
fn carry_out_recalled<S: Store>(cpu: &mut Cpu, store: &mut S, index: u32) -> bool
    requires index { index < LOCAL_MEMORY_WORDS }
    requires fetched { fetch_outcome cpu.old (S.words store.old) ≡ Ok (slice_index (S.words store.old) index) }
    requires words { length (S.words store.now) ≡ LOCAL_WORDS }
    ensures done { IsCarriedOut cpu.old (S.words store.old) (S.marks store.old)
        (step_of_fetch cpu.old (fetch_outcome cpu.old (S.words store.old))) result
        cpu.new (S.words store.new) (S.marks store.new) }
    ensures size { length (S.words store.new) ≡ length (S.words store.old) }
    ensures rest { S.rest store.new ≡ S.rest store.old }
{
    let word = store.word(index);
    carry_out_row(cpu, store, word)
}

/// The next cycle, wherever its instruction is fetched; its page is remembered.
#[cold]
#[inline(never)]
fn carry_out_found<S: Store>(cpu: &mut Cpu, store: &mut S) -> bool
    requires { length (S.words store.now) ≡ LOCAL_WORDS }
    ensures done { IsCarriedOut cpu.old (S.words store.old) (S.marks store.old)
        (step_of_fetch cpu.old (fetch_outcome cpu.old (S.words store.old))) result
        cpu.new (S.words store.new) (S.marks store.new) }
    ensures size { length (S.words store.new) ≡ length (S.words store.old) }
    ensures rest { S.rest store.new ≡ S.rest store.old }
{
    let pc = cpu.pc;
    cpu.remember(pc);
    carry_out_anywhere(cpu, store)
}

/// The next cycle, wherever its instruction is fetched.
#[inline(always)]
fn carry_out_anywhere<S: Store>(cpu: &mut Cpu, store: &mut S) -> bool
    requires { length (S.words store.now) ≡ LOCAL_WORDS }
    ensures done { IsCarriedOut cpu.old (S.words store.old) (S.marks store.old)
        (step_of_fetch cpu.old (fetch_outcome cpu.old (S.words store.old))) result
        cpu.new (S.words store.new) (S.marks store.new) }
    ensures size { length (S.words store.new) ≡ length (S.words store.old) }
    ensures rest { S.rest store.new ≡ S.rest store.old }
{
    let word = fetch(cpu, store);
    carry_out_fetched(cpu, store, word)
}

/// The next cycle where no interrupt is up.
#[inline(always)]
fn carry_out_instruction<S: Store>(cpu: &mut Cpu, store: &mut S) -> bool
    requires { length (S.words store.now) ≡ LOCAL_WORDS }
    ensures done { IsCarriedOut cpu.old (S.words store.old) (S.marks store.old)
        (step_of_fetch cpu.old (fetch_outcome cpu.old (S.words store.old))) result
        cpu.new (S.words store.new) (S.marks store.new) }
    ensures size { length (S.words store.new) ≡ length (S.words store.old) }
    ensures rest { S.rest store.new ≡ S.rest store.old }
{
    if let Some(index) = near_fetch(cpu) {
        carry_out_near(cpu, store, index)
    } else if let Some(index) = recalled_fetch(cpu) {
        carry_out_recalled(cpu, store, index)
    } else {
        carry_out_found(cpu, store)
    }
}

/// The next cycle, whether or not an interrupt is up.
#[cold]
#[inline(never)]
fn carry_out_tested<S: Store>(cpu: &mut Cpu, store: &mut S) -> bool
    requires { length (S.words store.now) ≡ LOCAL_WORDS }
    ensures done { IsCarriedOut cpu.old (S.words store.old) (S.marks store.old) (step_of cpu.old (S.words store.old)) result
        cpu.new (S.words store.new) (S.marks store.new) }
    ensures size { length (S.words store.new) ≡ length (S.words store.old) }
    ensures rest { S.rest store.new ≡ S.rest store.old }
{
    if interrupted(cpu) {
        return raised(cpu, Exc::plain(INT));
    }
    carry_out_instruction(cpu, store)
}

/// The next cycle.
#[inline(always)]
pub fn carry_out_cycle<S: Store>(cpu: &mut Cpu, store: &mut S) -> bool
    requires { length (S.words store.now) ≡ LOCAL_WORDS }
    ensures done { IsCarriedOut cpu.old (S.words store.old) (S.marks store.old) (step_of cpu.old (S.words store.old)) result
        cpu.new (S.words store.new) (S.marks store.new) }
    ensures size { length (S.words store.new) ≡ length (S.words store.old) }
    ensures rest { S.rest store.new ≡ S.rest store.old }
{
    if let Some(index) = local_fetch(cpu) {
        carry_out_recalled(cpu, store, index)
    } else {
        carry_out_tested(cpu, store)
    }
}
