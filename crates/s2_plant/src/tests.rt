//! The machine over short scripts, with faults of each kind. What is expected was worked out by hand from the rules
//! of `docs/MACHINE.md`.

ghost use Rattle.s2_plant.specs.StepPromises.{IsFirstPlant};
ghost use Rattle.std.specs.Prelude.{◌≡◌, ◌+◌, ◌<◌, ◌≤◌, length, IfOk};

use crate::{Plant, Turn};
use s2_base::{GLOBAL_WORDS, LOCAL_WORDS};
use s2_elf::Image;
use s2_journal::{Note, Reason, Why};
use s2_ports::{BoardFault, Event, Kind, Posted, Request};
use s2_script::{Act, Entry, proper};
use std::alloc::AllocGlobal;
use std::process::Abort;
use std::test::Fail;

/// The virtual address at which the programs begin, and the index of its word of local memory.
const START: u32 = 0x8001_0000;

const START_WORD: usize = 0x4000;

/// The index of the word of local memory at which the general exceptions are served.
const GENERAL_VECTOR_WORD: usize = 0x20;

/// A machine takes no more ticks than these.
const MOST_TICKS: u64 = 1 << 40;

/// Writes `h`, `i` and a line feed to the console and halts with 0.
const HELLO: [u32; 8] = [
    0x3C08_BF00,
    0x2409_0068,
    0xAD09_0000,
    0x2409_0069,
    0xAD09_0000,
    0x2409_000A,
    0xAD09_0000,
    0xAD00_0014,
];

/// Goes around in a loop of two cycles.
const SPIN: [u32; 2] = [0x0800_4000, 0x0000_0000];

/// Loads CONIN in each round of five cycles until a key waits, and writes the key to CONOUT.
const ECHO: [u32; 9] = [
    0x3C08_BF00,
    0x8D09_0004,
    0x0000_0000,
    0x312A_0100,
    0x1540_FFFC,
    0x0000_0000,
    0xAD09_0000,
    0x0800_4001,
    0x0000_0000,
];

/// Enables the timer's interrupt, and goes around in a loop of two cycles.
const TIMER: [u32; 4] = [0x3408_0801, 0x4088_6000, 0x0800_4002, 0x0000_0000];

/// Serves that interrupt: lowers the line by TIMACK, writes `T` to CONOUT and returns.
const TIMER_SERVICE: [u32; 8] = [
    0x3C1A_BF00,
    0xAF40_0010,
    0x241B_0054,
    0xAF5B_0000,
    0x401A_7000,
    0x0000_0000,
    0x0340_0008,
    0x4200_0010,
];

/// Loads word 0 of global memory, and goes around in a loop of two cycles.
const GLOB: [u32; 4] = [0x3C08_8400, 0x8D09_0000, 0x0800_4002, 0x0000_0000];

/// What a script made known.
#[derive(Drop)]
struct Told {
    notes: Vec<Note>,
    bytes: Vec<u8>,
    refused: Option<Reason>,
}

/// Writes a program's words from word `at` on.
fn put(words: &mut [u32], at: usize, program: &[u32])
    requires { at + length program.now ≤ length words.old }
    ensures { length words.new ≡ length words.old }
{
    words[at..at + program.len()].copy_from_slice(program);
}

/// The machine at the start of a program, with a service routine at the general vector.
fn machine(rt: &impl AllocGlobal, program: &[u32], service: &[u32]) -> Result<Plant, Fail>
    requires program { length program.now ≤ 16 }
    requires service { length service.now ≤ 16 }
    ensures { IfOk result IsFirstPlant }
{
    let alloc = rt.alloc();
    let mut local = vec![in alloc; 0u32; LOCAL_WORDS as usize]?;
    put(local.as_mut_slice(), START_WORD, program);
    put(local.as_mut_slice(), GENERAL_VECTOR_WORD, service);
    let global = vec![in alloc; 0u32; GLOBAL_WORDS as usize]?;
    let image = Image {
        entry: START,
        local,
        global,
    };
    match Plant::new(alloc, &image) {
        Ok(machine) => Ok(machine),
        Err(_) => Err(Fail::from("memory")),
    }
}

/// What a step made known joins what is told; and whether it was taken.
fn tell(told: &mut Told, answer: Result<Turn, Reason>) -> Result<bool, Fail> {
    match answer {
        Ok(turn) => {
            for note in turn.notes.as_slice() {
                told.notes.push(*note)?;
            }
            if let Some(byte) = turn.out {
                told.bytes.push(byte)?;
            }
            Ok(true)
        }
        Err(reason) => {
            told.refused = Some(reason);
            Ok(false)
        }
    }
}

/// So many ticks with a mask, up to a halt or a refusal; and whether all were taken.
fn ticks(plant: &mut Plant, mask: u8, n: u64, told: &mut Told) -> Result<bool, Fail>
    requires { mask < 8 }
{
    for _ in 0..n {
        if plant.halted().is_some() || plant.ticks() >= MOST_TICKS {
            return Ok(false);
        }
        let answer = plant.step_tick(mask);
        if !tell(told, answer)? {
            return Ok(false);
        }
    }
    Ok(true)
}

/// An act of a machine that has not halted; and whether it was taken.
fn act(plant: &mut Plant, act: &Act, told: &mut Told) -> Result<bool, Fail> {
    if plant.halted().is_some() || plant.accepted() >= MOST_TICKS || !proper(&Entry::One(*act)) {
        return Ok(false);
    }
    let answer = plant.step(act);
    tell(told, answer)
}

/// A script, up to a halt or a refusal.
fn run(rt: &impl AllocGlobal, plant: &mut Plant, script: &[Entry]) -> Result<Told, Fail> {
    let alloc = rt.alloc();
    let mut told = Told {
        notes: Vec::new(alloc),
        bytes: Vec::new(alloc),
        refused: None,
    };
    for entry in script {
        let taken = match entry {
            Entry::Ticks { mask, n } => *mask < 8 && ticks(plant, *mask, *n, &mut told)?,
            Entry::One(one) => act(plant, one, &mut told)?,
        };
        if !taken {
            break;
        }
    }
    Ok(told)
}

/// So many ticks with a mask, as an entry.
fn t(mask: u8, n: u64) -> Entry {
    Entry::Ticks { mask, n }
}

/// A key, as an entry.
fn key(byte: u8) -> Entry {
    Entry::One(Act::Event(Event::Key(byte)))
}

/// A saved word of a processor is loaded, as an entry.
fn poke(p: u8, k: u8, v: u32) -> Entry {
    Entry::One(Act::Poke { p, k, v })
}

/// What is told is this.
fn expect(rt: &impl Abort, told: &Told, notes: &[Note], bytes: &[u8]) {
    assert_eq!(rt; told.notes.as_slice(), notes);
    assert_eq!(rt; told.bytes.as_slice(), bytes);
}

/// The runs and the ticks are these.
fn expect_counts(rt: &impl Abort, plant: &Plant, runs: u64, ticks: u64) {
    assert_eq!(rt; plant.runs(), runs);
    assert_eq!(rt; plant.ticks(), ticks);
}

/// A saved word of the three processors is this.
fn expect_saved(rt: &impl Abort, plant: &Plant, k: u8, words: [u32; 3])
    requires { k < 176 }
{
    assert_eq!(rt; plant.saved(0, k), words[0]);
    assert_eq!(rt; plant.saved(1, k), words[1]);
    assert_eq!(rt; plant.saved(2, k), words[2]);
}

#[test]
fn a_key_is_echoed_after_the_frame_in_which_it_came(rt: HostRuntime) -> Result<(), Fail> {
    let mut plant = machine(&rt, &ECHO, &[])?;
    let told = run(&rt, &mut plant, &[key(0x41), t(7, 1041)])?;
    let event = Event::Key(0x41);
    expect(&rt, &told, &[Note::Delivered { run: 1024, event }], b"A");
    expect_counts(&rt, &plant, 1032, 1041);
    Ok(())
}

#[test]
fn a_short_frame_ends_after_its_run_cycles(rt: HostRuntime) -> Result<(), Fail> {
    let mut plant = machine(&rt, &SPIN, &[])?;
    plant.set_frame(64);
    let told = run(&rt, &mut plant, &[key(0x61), t(7, 65)])?;
    let event = Event::Key(0x61);
    expect(&rt, &told, &[Note::Delivered { run: 64, event }], &[]);
    expect_counts(&rt, &plant, 64, 65);
    Ok(())
}

#[test]
fn a_processor_is_late_after_384_ticks_with_a_long_frame(rt: HostRuntime) -> Result<(), Fail> {
    let mut plant = machine(&rt, &SPIN, &[])?;
    plant.set_frame(4096);
    let mute = Entry::One(Act::Mute { p: 2 });
    let told = run(&rt, &mut plant, &[mute, t(7, 5000)])?;
    let out = Note::Out {
        tick: 4513,
        p: 2,
        why: Why::Late,
    };
    expect(&rt, &told, &[out], &[]);
    expect_counts(&rt, &plant, 4579, 5000);
    Ok(())
}

#[test]
fn a_tick_of_the_timer_is_served(rt: HostRuntime) -> Result<(), Fail> {
    let mut plant = machine(&rt, &TIMER, &TIMER_SERVICE)?;
    let event = Event::Tick;
    let script = [Entry::One(Act::Event(event)), t(7, 1038)];
    let told = run(&rt, &mut plant, &script)?;
    expect(&rt, &told, &[Note::Delivered { run: 1024, event }], b"T");
    expect_counts(&rt, &plant, 1029, 1038);
    Ok(())
}

#[test]
fn a_processor_that_differs_or_is_late_is_out(rt: HostRuntime) -> Result<(), Fail> {
    let mut plant = machine(&rt, &SPIN, &[])?;
    let posted = Posted {
        request: Request {
            kind: Kind::Store,
            address: 0,
            word: 0,
            mask: 15,
            run: 0,
        },
        seen: 0,
    };
    let drive = Entry::One(Act::Drive { p: 2, posted });
    let told = run(&rt, &mut plant, &[drive, t(5, 4), t(7, 1033)])?;
    let out = Note::Out {
        tick: 1037,
        p: 2,
        why: Why::Differ,
    };
    expect(&rt, &told, &[out], &[]);
    expect_counts(&rt, &plant, 1024, 1037);
    let mut plant = machine(&rt, &SPIN, &[])?;
    let mute = Entry::One(Act::Mute { p: 2 });
    let told = run(&rt, &mut plant, &[mute, t(7, 2000)])?;
    let out = Note::Out {
        tick: 1161,
        p: 2,
        why: Why::Late,
    };
    expect(&rt, &told, &[out], &[]);
    expect_counts(&rt, &plant, 1857, 2000);
    Ok(())
}

#[test]
fn a_fifth_missed_tick_is_refused(rt: HostRuntime) -> Result<(), Fail> {
    let mut plant = machine(&rt, &HELLO, &[])?;
    let told = run(&rt, &mut plant, &[t(6, 5)])?;
    expect(&rt, &told, &[], &[]);
    assert_eq!(rt; told.refused, Some(Reason::Slow { p: 0, misses: 5 }));
    expect_counts(&rt, &plant, 0, 4);
    expect_saved(&rt, &plant, 47, [0, 2, 2]);
    Ok(())
}

#[test]
fn an_event_that_two_have_not_seen_waits_for_the_next_frame(rt: HostRuntime) -> Result<(), Fail> {
    let mut plant = machine(&rt, &SPIN, &[])?;
    let script = [t(5, 4), t(7, 1029), key(0x61), t(7, 4), t(7, 1033)];
    let told = run(&rt, &mut plant, &script)?;
    let event = Event::Key(0x61);
    expect(&rt, &told, &[Note::Delivered { run: 2048, event }], &[]);
    expect_counts(&rt, &plant, 2048, 2070);
    Ok(())
}

#[test]
fn a_wrong_byte_is_not_written(rt: HostRuntime) -> Result<(), Fail> {
    let mut plant = machine(&rt, &HELLO, &[])?;
    let told = run(&rt, &mut plant, &[t(7, 2), poke(0, 9, 0x41), t(7, 100)])?;
    let out = Note::Out {
        tick: 3,
        p: 0,
        why: Why::Differ,
    };
    expect(&rt, &told, &[out], b"hi\n");
    expect_counts(&rt, &plant, 8, 8);
    assert_eq!(rt; plant.halted(), Some(0));
    expect_saved(&rt, &plant, 47, [2, 8, 8]);
    expect_saved(&rt, &plant, 9, [0x41, 0x0A, 0x0A]);
    Ok(())
}

#[test]
fn eight_events_are_delivered_at_a_frame_end(rt: HostRuntime) -> Result<(), Fail> {
    let mut plant = machine(&rt, &SPIN, &[])?;
    let keys = [key(0x61); 17];
    let _waiting = run(&rt, &mut plant, &keys)?;
    let told = run(&rt, &mut plant, &[t(7, 3099)])?;
    assert_eq!(rt; told.notes.len(), 17);
    for (i, note) in told.notes.iter().enumerate() {
        let run = if i < 8 {
            1024
        } else if i < 16 {
            2048
        } else {
            3072
        };
        let event = Event::Key(0x61);
        assert_eq!(rt; *note, Note::Delivered { run, event });
    }
    expect_counts(&rt, &plant, 3072, 3099);
    Ok(())
}

#[test]
fn the_sixty_fifth_event_is_lost(rt: HostRuntime) -> Result<(), Fail> {
    let mut plant = machine(&rt, &SPIN, &[])?;
    let keys = [key(0x61); 65];
    let told = run(&rt, &mut plant, &keys)?;
    let event = Event::Key(0x61);
    expect(&rt, &told, &[Note::Lost { tick: 0, event }], &[]);
    assert_eq!(rt; plant.accepted(), 64);
    Ok(())
}

#[test]
fn a_bad_word_is_rewritten_and_the_last_board_is_kept(rt: HostRuntime) -> Result<(), Fail> {
    let mut plant = machine(&rt, &GLOB, &[])?;
    let flip = Entry::One(Act::Board(BoardFault::Flip {
        board: 1,
        index: 0,
        bit: 3,
    }));
    let dead = Entry::One(Act::Board(BoardFault::Dead { board: 0 }));
    let told = run(&rt, &mut plant, &[flip, t(7, 2), dead, flip])?;
    let repaired = Note::Repaired {
        tick: 2,
        board: 1,
        index: 0,
    };
    let out = Note::BoardDead { tick: 2, board: 0 };
    expect(&rt, &told, &[repaired, out], &[]);
    assert_eq!(rt; told.refused, Some(Reason::BothBoards { board: 1 }));
    expect_counts(&rt, &plant, 2, 2);
    Ok(())
}

#[test]
fn a_dead_board_is_mended_in_idle_turns(rt: HostRuntime) -> Result<(), Fail> {
    let mut plant = machine(&rt, &GLOB, &[])?;
    let dead = Entry::One(Act::Board(BoardFault::Dead { board: 1 }));
    let mend = Entry::One(Act::Mend { board: 1 });
    let told = run(&rt, &mut plant, &[dead, mend, t(7, 262_399)])?;
    let out = Note::BoardDead { tick: 0, board: 1 };
    let begun = Note::Mend { tick: 0, board: 1 };
    let mended = Note::Mended {
        tick: 262_399,
        board: 1,
    };
    expect(&rt, &told, &[out, begun, mended], &[]);
    expect_counts(&rt, &plant, 260_096, 262_399);
    Ok(())
}

#[test]
fn a_flip_beside_a_mending_board_is_refused(rt: HostRuntime) -> Result<(), Fail> {
    let mut plant = machine(&rt, &GLOB, &[])?;
    let dead = Entry::One(Act::Board(BoardFault::Dead { board: 1 }));
    let mend = Entry::One(Act::Mend { board: 1 });
    let flip = Entry::One(Act::Board(BoardFault::Flip {
        board: 0,
        index: 0,
        bit: 3,
    }));
    let told = run(&rt, &mut plant, &[dead, mend, t(7, 1), flip])?;
    let out = Note::BoardDead { tick: 0, board: 1 };
    let begun = Note::Mend { tick: 0, board: 1 };
    expect(&rt, &told, &[out, begun], &[]);
    assert_eq!(rt; told.refused, Some(Reason::BothBoards { board: 0 }));
    expect_counts(&rt, &plant, 1, 1);
    Ok(())
}

#[test]
fn a_second_tainted_processor_is_refused(rt: HostRuntime) -> Result<(), Fail> {
    let mut plant = machine(&rt, &SPIN, &[])?;
    let told = run(&rt, &mut plant, &[poke(0, 8, 1), poke(1, 8, 1)])?;
    let second = Reason::Second {
        tainted: 0,
        named: 1,
    };
    assert_eq!(rt; told.refused, Some(second));
    expect_counts(&rt, &plant, 0, 0);
    Ok(())
}

/// Processor `p` is disturbed, is out at the next frame's end, and is brought back while the others run.
fn fail_and_return<R: Abort + AllocGlobal>(
    rt: &R,
    plant: &mut Plant,
    p: u8,
    begin: u64,
    end: u64,
) -> Result<(), Fail> {
    let script = [
        poke(p, 46, 1),
        t(7, 1033),
        Entry::One(Act::Revive { p }),
        t(7, 552_467),
    ];
    let told = run(rt, plant, &script)?;
    let out = Note::Out {
        tick: begin,
        p,
        why: Why::Differ,
    };
    let join = Note::Join { tick: begin, p };
    let joined = Note::Joined {
        tick: end,
        p,
        good: true,
    };
    expect(rt, &told, &[out, join, joined], &[]);
    Ok(())
}

#[test]
fn each_processor_fails_and_returns(rt: HostRuntime) -> Result<(), Fail> {
    let mut plant = machine(&rt, &SPIN, &[])?;
    fail_and_return(&rt, &mut plant, 0, 1033, 553_500)?;
    expect_counts(&rt, &plant, 272_384, 553_500);
    fail_and_return(&rt, &mut plant, 1, 554_533, 1_107_000)?;
    fail_and_return(&rt, &mut plant, 2, 1_108_033, 1_660_500)?;
    for k in 0..176u8 {
        let word = plant.saved(0, k);
        expect_saved(&rt, &plant, k, [word, word, word]);
    }
    assert_eq!(rt; plant.local_word(0, START_WORD as u32), SPIN[0]);
    Ok(())
}
