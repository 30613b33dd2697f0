//! Three short programs, run from their start. What is expected was worked out by hand, cycle by cycle.

ghost use Rattle.std.specs.Prelude.{◌≡◌, ◌+◌, ◌≤◌, length};

use crate::{Burst, Single};
use s2_base::{GLOBAL_WORDS, LOCAL_WORDS};
use s2_elf::Image;
use s2_ports::Event;
use std::alloc::AllocGlobal;
use std::test::Fail;

/// The virtual address at which the programs begin, and the index of its word of local memory.
const START: u32 = 0x8001_0000;

const START_WORD: usize = 0x4000;

/// The index of the word of local memory at which the general exceptions are served.
const GENERAL_VECTOR_WORD: usize = 0x20;

/// Writes `h`, `i` and a line feed to the console and halts with 0: the program `examples/hello/hello.s`.
const HELLO: [u32; 8] = [
    0x3C08_BF00,
    0x2409_0068,
    0xAD09_0000,
    0x2409_0069,
    0xAD09_0000,
    0x2409_000A,
    0xAD09_0000,
    0xAD00_0014,
];

/// Loads CONIN in each round of five cycles until a key waits, and writes the key to CONOUT:
/// lui r8, 0xBF00; 1: lw r9, 4(r8); nop; andi r10, r9, 0x100; bne r10, r0, 1; nop; sw r9, 0(r8); j 1; nop.
const ECHO: [u32; 9] = [
    0x3C08_BF00,
    0x8D09_0004,
    0x0000_0000,
    0x312A_0100,
    0x1540_FFFC,
    0x0000_0000,
    0xAD09_0000,
    0x0800_4001,
    0x0000_0000,
];

/// Enables the timer's interrupt, and goes around in a loop of two cycles:
/// ori r8, r0, 0x801; mtc0 r8, Status; 1: j 1; nop.
const TIMER: [u32; 4] = [0x3408_0801, 0x4088_6000, 0x0800_4002, 0x0000_0000];

/// Serves that interrupt: lowers the line by TIMACK, writes `T` to CONOUT and returns:
/// lui r26, 0xBF00; sw r0, 16(r26); addiu r27, r0, 'T'; sw r27, 0(r26); mfc0 r26, EPC; nop; jr r26; rfe.
const TIMER_SERVICE: [u32; 8] = [
    0x3C1A_BF00,
    0xAF40_0010,
    0x241B_0054,
    0xAF5B_0000,
    0x401A_7000,
    0x0000_0000,
    0x0340_0008,
    0x4200_0010,
];

/// Writes a program's words from word `at` on.
fn put(words: &mut [u32], at: usize, program: &[u32])
    requires { at + length program.now ≤ length words.old }
    ensures { length words.new ≡ length words.old }
{
    words[at..at + program.len()].copy_from_slice(program);
}

/// The machine at the start of a program, with a service routine at the general vector.
fn machine(rt: &impl AllocGlobal, program: &[u32], service: &[u32]) -> Result<Single, Fail>
    requires program { length program.now ≤ 16 }
    requires service { length service.now ≤ 16 }
{
    let alloc = rt.alloc();
    let mut local = vec![in alloc; 0u32; LOCAL_WORDS as usize]?;
    put(local.as_mut_slice(), START_WORD, program);
    put(local.as_mut_slice(), GENERAL_VECTOR_WORD, service);
    let global = vec![in alloc; 0u32; GLOBAL_WORDS as usize]?;
    let image = Image {
        entry: START,
        local,
        global,
    };
    match Single::new(alloc, &image) {
        Ok(machine) => Ok(machine),
        Err(_) => Err(Fail::from("memory")),
    }
}

/// Runs so many cycles, or to a halt, and gives what was written to the console.
fn run(rt: &impl AllocGlobal, machine: &mut Single, cycles: u64) -> Result<Vec<u8>, Fail> {
    let mut bytes = Vec::new(rt.alloc());
    for _ in 0..cycles {
        if machine.halted().is_none() {
            if let Some(byte) = machine.cycle().out {
                bytes.push(byte)?;
            }
        }
    }
    Ok(bytes)
}

#[test]
fn hello_is_written_and_halts_in_its_eighth_cycle(rt: HostRuntime) -> Result<(), Fail> {
    let mut hello = machine(&rt, &HELLO, &[])?;
    assert_eq!(rt; run(&rt, &mut hello, 7)?.as_slice(), b"hi\n".as_slice());
    assert_eq!(rt; hello.halted(), None);
    assert_eq!(rt; run(&rt, &mut hello, 2000)?.as_slice(), b"".as_slice());
    assert_eq!(rt; hello.halted(), Some(0));
    assert_eq!(rt; hello.run(), 8);
    Ok(())
}

/// A burst of a machine that has not halted.
fn burst(machine: &mut Single, limit: u64) -> Option<Burst> {
    if limit > 0 && machine.halted().is_none() {
        Some(machine.burst(limit))
    } else {
        None
    }
}

#[test]
fn a_burst_ends_at_an_access_or_at_its_limit(rt: HostRuntime) -> Result<(), Fail> {
    let mut hello = machine(&rt, &HELLO, &[])?;
    let two = Burst { left: 0, out: None };
    assert_eq!(rt; burst(&mut hello, 2), Some(two));
    let letter = Burst {
        left: 99,
        out: Some(b'h'),
    };
    assert_eq!(rt; burst(&mut hello, 100), Some(letter));
    let next = Burst {
        left: 98,
        out: Some(b'i'),
    };
    assert_eq!(rt; burst(&mut hello, 100), Some(next));
    assert_eq!(rt; hello.run(), 5);
    Ok(())
}

#[test]
fn a_delivered_key_is_echoed_once(rt: HostRuntime) -> Result<(), Fail> {
    let mut echo = machine(&rt, &ECHO, &[])?;
    assert_eq!(rt; run(&rt, &mut echo, 1024)?.as_slice(), b"".as_slice());
    echo.deliver(Event::Key(b'A'));
    assert_eq!(rt; run(&rt, &mut echo, 7)?.as_slice(), b"".as_slice());
    assert_eq!(rt; run(&rt, &mut echo, 1)?.as_slice(), b"A".as_slice());
    assert_eq!(rt; run(&rt, &mut echo, 968)?.as_slice(), b"".as_slice());
    assert_eq!(rt; echo.run(), 2000);
    Ok(())
}

#[test]
fn a_delivered_tick_interrupts_the_next_cycle_once(rt: HostRuntime) -> Result<(), Fail> {
    let mut timer = machine(&rt, &TIMER, &TIMER_SERVICE)?;
    assert_eq!(rt; run(&rt, &mut timer, 1024)?.as_slice(), b"".as_slice());
    timer.deliver(Event::Tick);
    assert_eq!(rt; run(&rt, &mut timer, 4)?.as_slice(), b"".as_slice());
    assert_eq!(rt; run(&rt, &mut timer, 1)?.as_slice(), b"T".as_slice());
    assert_eq!(rt; run(&rt, &mut timer, 971)?.as_slice(), b"".as_slice());
    Ok(())
}
