//! Short programs in local memory, against values worked out by hand from the manual.

ghost use Rattle.std.specs.Prelude.{◌≡◌, ◌<◌, length, IfOk};

use crate::{Ask, ask, finish, work};
use s2_base::LOCAL_WORDS;
use s2_cpu::Cpu;
use s2_ports::{Kind, Reply, Request};
use s2_store::{FlatStore, Store};
use std::alloc::Global;
use std::process::Abort;
use std::test::Fail;

/// The address at which the programs stand, and the index of its word of local memory.
const PROGRAM: u32 = 0x8001_0000;

const PROGRAM_WORD: u32 = 0x4000;

/// Local memory, all of whose words are 0.
fn blank(alloc: Global) -> Result<FlatStore, Fail>
    ensures { IfOk result (λ s. length s ≡ LOCAL_WORDS) }
{
    let words = vec![in alloc; 0u32; LOCAL_WORDS as usize]?;
    match FlatStore::new(alloc, words.as_slice()) {
        Ok(store) => Ok(store),
        Err(_) => Err(Fail::from("memory")),
    }
}

/// Writes a word of local memory.
fn put(store: &mut FlatStore, i: u32, word: u32)
    requires index { i < LOCAL_WORDS }
    requires words { length store.old ≡ LOCAL_WORDS }
    ensures { length store.new ≡ LOCAL_WORDS }
{
    store.set(i, word);
}

/// Runs a cycle that stays within the module.
fn run(rt: &impl Abort, cpu: &mut Cpu, store: &mut FlatStore)
    requires { length store.old ≡ LOCAL_WORDS }
    ensures { length store.new ≡ LOCAL_WORDS }
{
    assert_eq!(rt; work(cpu, store), Ask::Local);
}

/// ADD overflows in the delay slot of a branch: EPC is the branch's.
#[test]
fn an_overflow_in_a_delay_slot_returns_to_the_branch(rt: HostRuntime) -> Result<(), Fail> {
    let mut store = blank(rt.alloc())?;
    put(&mut store, PROGRAM_WORD + 3, 0x012A_4020);
    let mut cpu = Cpu::start(PROGRAM + 12);
    cpu.slot = true;
    cpu.r.set(8, 5);
    cpu.r.set(9, 0x7FFF_FFFF);
    cpu.r.set(10, 1);
    run(&rt, &mut cpu, &mut store);
    assert_eq!(rt; cpu.pc, 0x8000_0080);
    assert_eq!(rt; cpu.cp0.epc, 0x8001_0008);
    assert_eq!(rt; cpu.cp0.cause, 0x8000_0030);
    assert_eq!(rt; cpu.r.get(8), 5);
    assert_eq!(rt; cpu.run, 1);
    Ok(())
}

/// LWL r9, 1(r8) and at once LWR r9, 4(r8): the second merges with what the first loads.
#[test]
fn a_word_that_is_not_aligned_is_loaded_by_two_merges(rt: HostRuntime) -> Result<(), Fail> {
    let mut store = blank(rt.alloc())?;
    put(&mut store, 0x40, 0x0011_2233);
    put(&mut store, 0x41, 0x4455_6677);
    put(&mut store, PROGRAM_WORD, 0x8909_0001);
    put(&mut store, PROGRAM_WORD + 1, 0x9909_0004);
    let mut cpu = Cpu::start(PROGRAM);
    cpu.r.set(8, 0x8000_0100);
    run(&rt, &mut cpu, &mut store);
    run(&rt, &mut cpu, &mut store);
    run(&rt, &mut cpu, &mut store);
    assert_eq!(rt; cpu.r.get(9), 0x1122_3344);
    Ok(())
}

/// LW r2, 0(r8), and ADDU r3, r2, r0 and ADDU r4, r2, r0: the first of these still reads the old word.
#[test]
fn a_load_is_seen_one_instruction_later(rt: HostRuntime) -> Result<(), Fail> {
    let mut store = blank(rt.alloc())?;
    put(&mut store, 0x40, 9);
    put(&mut store, PROGRAM_WORD, 0x8D02_0000);
    put(&mut store, PROGRAM_WORD + 1, 0x0040_1821);
    put(&mut store, PROGRAM_WORD + 2, 0x0040_2021);
    let mut cpu = Cpu::start(PROGRAM);
    cpu.r.set(2, 5);
    cpu.r.set(8, 0x8000_0100);
    run(&rt, &mut cpu, &mut store);
    run(&rt, &mut cpu, &mut store);
    run(&rt, &mut cpu, &mut store);
    assert_eq!(rt; cpu.r.get(3), 5);
    assert_eq!(rt; cpu.r.get(4), 9);
    Ok(())
}

/// LW r9 from 0x1234, whose page has no entry, and from 0x234, whose entry is not valid.
#[test]
fn a_load_of_an_unmapped_page_goes_to_its_vector(rt: HostRuntime) -> Result<(), Fail> {
    let mut store = blank(rt.alloc())?;
    put(&mut store, PROGRAM_WORD, 0x8C09_1234);
    put(&mut store, PROGRAM_WORD + 1, 0x8C09_0234);
    let mut cpu = Cpu::start(PROGRAM);
    run(&rt, &mut cpu, &mut store);
    assert_eq!(rt; cpu.pc, 0x8000_0000);
    assert_eq!(rt; cpu.cp0.cause, 0x0000_0008);
    assert_eq!(rt; cpu.cp0.bad, 0x0000_1234);
    assert_eq!(rt; cpu.cp0.context, 0x0000_0004);
    assert_eq!(rt; cpu.cp0.entry_hi, 0x0000_1000);
    let mut other = Cpu::start(PROGRAM + 4);
    run(&rt, &mut other, &mut store);
    assert_eq!(rt; other.pc, 0x8000_0080);
    Ok(())
}

/// SB r8, 5(r9) to global memory asks for one byte of the second word, and the answer ends it.
#[test]
fn a_store_to_global_memory_asks_and_is_answered(rt: HostRuntime) -> Result<(), Fail> {
    let mut store = blank(rt.alloc())?;
    put(&mut store, PROGRAM_WORD, 0xA128_0005);
    let mut cpu = Cpu::start(PROGRAM);
    cpu.r.set(8, 0x1234_56AB);
    cpu.r.set(9, 0x8400_0000);
    let request = Request {
        kind: Kind::Store,
        address: 0x0400_0004,
        word: 0x00AB_0000,
        mask: 4,
        run: 0,
    };
    assert_eq!(rt; ask(&cpu, &store), Ask::Outside(request));
    assert_eq!(rt; work(&mut cpu, &mut store), Ask::Outside(request));
    assert_eq!(rt; cpu.run, 0);
    if ask(&cpu, &store) != Ask::Local {
        finish(&mut cpu, &mut store, Reply { word: 0, lines: 2 });
    }
    assert_eq!(rt; cpu.run, 1);
    assert_eq!(rt; cpu.pc, PROGRAM + 4);
    assert_eq!(rt; cpu.lines, 2);
    Ok(())
}
