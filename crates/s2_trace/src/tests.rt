//! Two programs, asked for at run counts in any order. What is expected was worked out by hand, cycle by cycle.

ghost use Rattle.std.specs.Prelude.{◌≡◌, ◌+◌, ◌≤◌, [], false, length, IfOk};
ghost use Rattle.s2_trace.specs.TraceState.{AreUpTo};

use crate::{MOST_DELIVERIES, Trace};
use s2_base::{GLOBAL_WORDS, LOCAL_WORDS};
use s2_elf::Image;
use s2_ports::Event;
use std::alloc::AllocGlobal;
use std::test::Fail;

/// The virtual address at which the programs begin, and the index of its word of local memory.
const START: u32 = 0x8001_0000;

const START_WORD: usize = 0x4000;

/// Where the general exceptions are served, and the index of its word of local memory.
const GENERAL_VECTOR: u32 = 0x8000_0080;

const GENERAL_VECTOR_WORD: usize = 0x20;

/// The saved words that the tests look at: register 9 and pc.
const REGISTER_9: u8 = 9;

const PC: u8 = 34;

/// Writes `h`, `i` and a line feed to the console and halts in its eighth cycle: `examples/hello/hello.s`.
const HELLO: [u32; 8] = [
    0x3C08_BF00,
    0x2409_0068,
    0xAD09_0000,
    0x2409_0069,
    0xAD09_0000,
    0x2409_000A,
    0xAD09_0000,
    0xAD00_0014,
];

/// Enables the timer's interrupt, and goes around in a loop of two cycles:
/// ori r8, r0, 0x801; mtc0 r8, Status; 1: j 1; nop.
const TIMER: [u32; 4] = [0x3408_0801, 0x4088_6000, 0x0800_4002, 0x0000_0000];

/// The virtual address of that loop.
const LOOP: u32 = START + 8;

/// Serves that interrupt in eight cycles: lowers the line by TIMACK, writes `T` to CONOUT and returns:
/// lui r26, 0xBF00; sw r0, 16(r26); addiu r27, r0, 'T'; sw r27, 0(r26); mfc0 r26, EPC; nop; jr r26; rfe.
const TIMER_SERVICE: [u32; 8] = [
    0x3C1A_BF00,
    0xAF40_0010,
    0x241B_0054,
    0xAF5B_0000,
    0x401A_7000,
    0x0000_0000,
    0x0340_0008,
    0x4200_0010,
];

/// Writes a program's words from word `at` on.
fn put(words: &mut [u32], at: usize, program: &[u32])
    requires { at + length program.now ≤ length words.old }
    ensures { length words.new ≡ length words.old }
{
    words[at..at + program.len()].copy_from_slice(program);
}

/// The trace of a program, with a service routine at the general vector.
fn trace(rt: &impl AllocGlobal, program: &[u32], service: &[u32], every: u64) -> Result<Trace, Fail>
    requires program { length program.now ≤ 16 }
    requires service { length service.now ≤ 16 }
    requires every { 1 ≤ every }
    ensures { IfOk result (λ t. (t.asked ≡ false) × (t.deliveries ≡ [])) }
{
    let alloc = rt.alloc();
    let mut local = vec![in alloc; 0u32; LOCAL_WORDS as usize]?;
    put(local.as_mut_slice(), START_WORD, program);
    put(local.as_mut_slice(), GENERAL_VECTOR_WORD, service);
    let global = vec![in alloc; 0u32; GLOBAL_WORDS as usize]?;
    let image = Image {
        entry: START,
        local,
        global,
    };
    match Trace::new(alloc, &image, every) {
        Ok(trace) => Ok(trace),
        Err(_) => Err(Fail::from("memory")),
    }
}

/// What a trace tells of a run count: the machine's run count, and its pc.
fn asked(trace: &mut Trace, n: u64) -> (u64, u32) {
    trace.at(n);
    (trace.run(), trace.word(PC))
}

#[test]
fn hello_is_asked_for_in_any_order_and_beyond_its_halt(rt: HostRuntime) -> Result<(), Fail> {
    let mut hello = trace(&rt, &HELLO, &[], 1)?;
    assert_eq!(rt; asked(&mut hello, 2), (2, START + 8));
    assert_eq!(rt; hello.word(REGISTER_9), 0x68);
    assert_eq!(rt; asked(&mut hello, 100), (8, START + 32));
    assert_eq!(rt; hello.word(REGISTER_9), 0x0A);
    assert_eq!(rt;
        [hello.kept(0), hello.kept(1), hello.kept(8), hello.kept(9)],
        [None, Some(1), Some(8), None]
    );
    assert_eq!(rt; asked(&mut hello, 2), (2, START + 8));
    assert_eq!(rt; hello.word(REGISTER_9), 0x68);
    assert_eq!(rt; asked(&mut hello, 2), (2, START + 8));
    assert_eq!(rt; asked(&mut hello, 0), (0, START));
    assert_eq!(rt; hello.kept(8), Some(8));
    assert_eq!(rt; hello.local_word(START_WORD as u32), 0x3C08_BF00);
    Ok(())
}

#[test]
fn a_tick_acts_once_in_whatever_order_its_run_count_is_asked_for(
    rt: HostRuntime,
) -> Result<(), Fail> {
    let mut timer = trace(&rt, &TIMER, &TIMER_SERVICE, 7)?;
    assert!(rt; timer.push(1024, Event::Tick));
    assert_eq!(rt; asked(&mut timer, 1025), (1025, GENERAL_VECTOR));
    assert_eq!(rt; [timer.kept(2), timer.kept(3)], [Some(1022), Some(917)]);
    assert_eq!(rt; asked(&mut timer, 1024), (1024, LOOP));
    assert_eq!(rt; asked(&mut timer, 2001), (2001, LOOP));
    assert_eq!(rt; [timer.kept(13), timer.kept(14)], [Some(1995), Some(1890)]);
    assert_eq!(rt; asked(&mut timer, 1033), (1033, LOOP));
    assert_eq!(rt; asked(&mut timer, 1025), (1025, GENERAL_VECTOR));
    assert_eq!(rt; timer.kept(13), Some(1995));
    Ok(())
}

#[test]
fn a_machine_is_kept_at_each_multiple_of_65_536(rt: HostRuntime) -> Result<(), Fail> {
    let mut timer = trace(&rt, &TIMER, &TIMER_SERVICE, 65_536)?;
    assert_eq!(rt; asked(&mut timer, 1_000_000), (1_000_000, LOOP));
    assert_eq!(rt; [timer.kept(0), timer.kept(15)], [None, Some(983_040)]);
    assert_eq!(rt; asked(&mut timer, 983_039), (983_039, LOOP + 4));
    Ok(())
}

/// Holds as many deliveries as there is room for: whether each was taken.
fn fill(trace: &mut Trace) -> bool
    requires asked { trace.old.asked ≡ false }
    requires none { trace.old.deliveries ≡ [] }
    ensures asked { trace.new.asked ≡ false }
    ensures order { AreUpTo 0 trace.new.deliveries }
{
    let mut taken = true;
    for _ in 0..MOST_DELIVERIES {
        taken = trace.push(0, Event::Tick) && taken;
    }
    taken
}

#[test]
fn one_delivery_too_many_is_not_taken(rt: HostRuntime) -> Result<(), Fail> {
    let mut hello = trace(&rt, &HELLO, &[], 65_536)?;
    assert!(rt; fill(&mut hello));
    assert!(rt; !hello.push(0, Event::Tick));
    assert_eq!(rt; asked(&mut hello, 3), (3, START + 12));
    Ok(())
}
