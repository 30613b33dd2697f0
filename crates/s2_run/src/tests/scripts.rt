//! The worked runs of scripts on the triple machine.

use super::{ECHO, HELLO, HELLO_REPORT, Row, expect, served};
use crate::Status;
use s2_journal::Reason;
use std::test::Fail;

/// A program that jumps to itself, for ever.
#[rattlefmt::skip]
static SPIN: [u8; 92] = [
    0x7F, 0x45, 0x4C, 0x46, 0x01, 0x02, 0x01, 0x00, 0x00, 0x00, 0x00, 0x00,
    0x00, 0x00, 0x00, 0x00, 0x00, 0x02, 0x00, 0x08, 0x00, 0x00, 0x00, 0x01,
    0x80, 0x01, 0x00, 0x00, 0x00, 0x00, 0x00, 0x34, 0x00, 0x00, 0x00, 0x00,
    0x00, 0x00, 0x00, 0x00, 0x00, 0x34, 0x00, 0x20, 0x00, 0x01, 0x00, 0x00,
    0x00, 0x00, 0x00, 0x00, 0x00, 0x00, 0x00, 0x01, 0x00, 0x00, 0x00, 0x54,
    0x80, 0x01, 0x00, 0x00, 0x80, 0x01, 0x00, 0x00, 0x00, 0x00, 0x00, 0x08,
    0x00, 0x00, 0x00, 0x08, 0x00, 0x00, 0x00, 0x07, 0x00, 0x00, 0x00, 0x04,
    0x08, 0x00, 0x40, 0x00, 0x00, 0x00, 0x00, 0x00,
];

/// A program that enables the timer's interrupt and spins; its service routine lowers the timer line and writes `T`.
#[rattlefmt::skip]
static TIMER: [u8; 164] = [
    0x7F, 0x45, 0x4C, 0x46, 0x01, 0x02, 0x01, 0x00, 0x00, 0x00, 0x00, 0x00,
    0x00, 0x00, 0x00, 0x00, 0x00, 0x02, 0x00, 0x08, 0x00, 0x00, 0x00, 0x01,
    0x80, 0x01, 0x00, 0x00, 0x00, 0x00, 0x00, 0x34, 0x00, 0x00, 0x00, 0x00,
    0x00, 0x00, 0x00, 0x00, 0x00, 0x34, 0x00, 0x20, 0x00, 0x02, 0x00, 0x00,
    0x00, 0x00, 0x00, 0x00, 0x00, 0x00, 0x00, 0x01, 0x00, 0x00, 0x00, 0x74,
    0x80, 0x01, 0x00, 0x00, 0x80, 0x01, 0x00, 0x00, 0x00, 0x00, 0x00, 0x10,
    0x00, 0x00, 0x00, 0x10, 0x00, 0x00, 0x00, 0x07, 0x00, 0x00, 0x00, 0x04,
    0x00, 0x00, 0x00, 0x01, 0x00, 0x00, 0x00, 0x84, 0x80, 0x00, 0x00, 0x80,
    0x80, 0x00, 0x00, 0x80, 0x00, 0x00, 0x00, 0x20, 0x00, 0x00, 0x00, 0x20,
    0x00, 0x00, 0x00, 0x07, 0x00, 0x00, 0x00, 0x04, 0x34, 0x08, 0x08, 0x01,
    0x40, 0x88, 0x60, 0x00, 0x08, 0x00, 0x40, 0x02, 0x00, 0x00, 0x00, 0x00,
    0x3C, 0x1A, 0xBF, 0x00, 0xAF, 0x40, 0x00, 0x10, 0x24, 0x1B, 0x00, 0x54,
    0xAF, 0x5B, 0x00, 0x00, 0x40, 0x1A, 0x70, 0x00, 0x00, 0x00, 0x00, 0x00,
    0x03, 0x40, 0x00, 0x08, 0x42, 0x00, 0x00, 0x10,
];

/// A program that stores to the last word of each page of local memory, for ever: 773 cycles for all of them.
#[rattlefmt::skip]
static SWEEP: [u8; 116] = [
    0x7F, 0x45, 0x4C, 0x46, 0x01, 0x02, 0x01, 0x00, 0x00, 0x00, 0x00, 0x00,
    0x00, 0x00, 0x00, 0x00, 0x00, 0x02, 0x00, 0x08, 0x00, 0x00, 0x00, 0x01,
    0x80, 0x01, 0x00, 0x00, 0x00, 0x00, 0x00, 0x34, 0x00, 0x00, 0x00, 0x00,
    0x00, 0x00, 0x00, 0x00, 0x00, 0x34, 0x00, 0x20, 0x00, 0x01, 0x00, 0x00,
    0x00, 0x00, 0x00, 0x00, 0x00, 0x00, 0x00, 0x01, 0x00, 0x00, 0x00, 0x54,
    0x80, 0x01, 0x00, 0x00, 0x80, 0x01, 0x00, 0x00, 0x00, 0x00, 0x00, 0x20,
    0x00, 0x00, 0x00, 0x20, 0x00, 0x00, 0x00, 0x07, 0x00, 0x00, 0x00, 0x04,
    0x3C, 0x08, 0x80, 0x00, 0x3C, 0x09, 0x80, 0x0F, 0x35, 0x29, 0xF0, 0x00,
    0xAD, 0x00, 0x0F, 0xFC, 0x15, 0x09, 0xFF, 0xFE, 0x25, 0x08, 0x10, 0x00,
    0x08, 0x00, 0x40, 0x00, 0x00, 0x00, 0x00, 0x00,
];

/// A program that loads word 0 of global memory and spins.
#[rattlefmt::skip]
static GLOB: [u8; 100] = [
    0x7F, 0x45, 0x4C, 0x46, 0x01, 0x02, 0x01, 0x00, 0x00, 0x00, 0x00, 0x00,
    0x00, 0x00, 0x00, 0x00, 0x00, 0x02, 0x00, 0x08, 0x00, 0x00, 0x00, 0x01,
    0x80, 0x01, 0x00, 0x00, 0x00, 0x00, 0x00, 0x34, 0x00, 0x00, 0x00, 0x00,
    0x00, 0x00, 0x00, 0x00, 0x00, 0x34, 0x00, 0x20, 0x00, 0x01, 0x00, 0x00,
    0x00, 0x00, 0x00, 0x00, 0x00, 0x00, 0x00, 0x01, 0x00, 0x00, 0x00, 0x54,
    0x80, 0x01, 0x00, 0x00, 0x80, 0x01, 0x00, 0x00, 0x00, 0x00, 0x00, 0x10,
    0x00, 0x00, 0x00, 0x10, 0x00, 0x00, 0x00, 0x07, 0x00, 0x00, 0x00, 0x04,
    0x3C, 0x08, 0x84, 0x00, 0x8D, 0x09, 0x00, 0x00, 0x08, 0x00, 0x40, 0x02,
    0x00, 0x00, 0x00, 0x00,
];

#[test]
fn events_are_delivered_at_the_next_frame_end(rt: HostRuntime) -> Result<(), Fail> {
    let row1 = Row {
        file: &ECHO,
        status: Status::Done,
        console: b"A",
        report: b"d 1024 key 41\nruns 1032\nticks 1041\nbytes 1\nend script\n",
        ..Row::hello("a key is echoed", b"key 41\nt 7 1041\n")
    };
    expect(&rt, &row1)?;
    let row2 = Row {
        file: &TIMER,
        status: Status::Done,
        console: b"T",
        report: b"d 1024 tick\nruns 1029\nticks 1038\nbytes 1\nend script\n",
        ..Row::hello("a timer tick interrupts", b"tick\nt 7 1038\n")
    };
    expect(&rt, &row2)?;
    let row3 = Row {
        file: &SPIN,
        status: Status::Done,
        report: b"d 2048 key 61\nruns 2048\nticks 2070\nbytes 0\nend script\n",
        ..Row::hello(
            "a key comes between two postings",
            b"t 5 4\nt 7 1029\nkey 61\nt 7 4\nt 7 1033\n",
        )
    };
    expect(&rt, &row3)
}

#[test]
fn line_1_may_choose_the_frame(rt: HostRuntime) -> Result<(), Fail> {
    let row1 = Row {
        file: &SPIN,
        status: Status::Done,
        report: b"d 64 key 61\nruns 64\nticks 65\nbytes 0\nend script\n",
        ..Row::hello("a short frame", b"version 2 64\nkey 61\nt 7 65\n")
    };
    expect(&rt, &row1)?;
    let row2 = Row {
        file: &SPIN,
        status: Status::Done,
        report: b"out 4513 2 late\nruns 4579\nticks 5000\nbytes 0\nend script\n",
        ..Row::hello("a long frame", b"version 2 4096\nmute 2\nt 7 5000\n")
    };
    expect(&rt, &row2)?;
    let row3 = Row {
        file: &SPIN,
        status: Status::BadLine { line: 2, column: 1 },
        report: b"runs 0\nticks 0\nbytes 0\nend bad 2 1\n",
        ..Row::hello("a version line behind another", b"tick\nversion 2 64\n")
    };
    expect(&rt, &row3)
}

#[test]
fn a_processor_that_differs_or_is_late_is_out(rt: HostRuntime) -> Result<(), Fail> {
    let row1 = Row {
        file: &SPIN,
        status: Status::Done,
        report: b"out 1037 2 differ\nruns 1024\nticks 1037\nbytes 0\nend script\n",
        ..Row::hello(
            "a driven request differs",
            b"drive 2 s 00000000 00000000 15 0 0\nt 5 4\nt 7 1033\n",
        )
    };
    expect(&rt, &row1)?;
    let row2 = Row {
        file: &SPIN,
        status: Status::Done,
        report: b"out 1161 2 late\nruns 1857\nticks 2000\nbytes 0\nend script\n",
        ..Row::hello("a muted processor is late", b"mute 2\nt 7 2000\n")
    };
    expect(&rt, &row2)
}

#[test]
fn a_step_outside_the_premises_ends_the_run(rt: HostRuntime) -> Result<(), Fail> {
    let row1 = Row {
        file: &GLOB,
        status: Status::Outside {
            line: 4,
            reason: Reason::BothBoards { board: 1 },
        },
        report: b"repair 2 1 0\nboard 2 0\nruns 2\nticks 2\nbytes 0\nend outside 4 board 1\n",
        ..Row::hello(
            "a repair on a board, and a board that is dead",
            b"flip 1 0 3\nt 7 2\ndead 0\nflip 1 0 3\n",
        )
    };
    expect(&rt, &row1)?;
    let row2 = Row {
        file: &SPIN,
        status: Status::Outside {
            line: 2,
            reason: Reason::Second {
                tainted: 0,
                named: 1,
            },
        },
        report: b"runs 0\nticks 0\nbytes 0\nend outside 2 second 0 1\n",
        ..Row::hello(
            "a second processor is disturbed",
            b"poke 0 8 00000001\npoke 1 8 00000001\n",
        )
    };
    expect(&rt, &row2)
}

#[test]
fn a_dead_board_is_mended(rt: HostRuntime) -> Result<(), Fail> {
    let row1 = Row {
        file: &GLOB,
        status: Status::Done,
        report: b"board 0 1\nmend 0 1\nmended 262399 1\nruns 260096\nticks 262399\nbytes 0\nend script\n",
        ..Row::hello("a board is mended", b"dead 1\nmend 1\nt 7 262399\n")
    };
    expect(&rt, &row1)?;
    let row2 = Row {
        file: &GLOB,
        status: Status::Outside {
            line: 4,
            reason: Reason::BothBoards { board: 0 },
        },
        report: b"board 0 1\nmend 0 1\nruns 1\nticks 1\nbytes 0\nend outside 4 board 0\n",
        ..Row::hello(
            "a flip beside a board that mends",
            b"dead 1\nmend 1\nt 7 1\nflip 0 0 3\n",
        )
    };
    expect(&rt, &row2)
}

#[test]
fn a_processor_is_brought_back(rt: HostRuntime) -> Result<(), Fail> {
    let row1 = Row {
        file: &SPIN,
        status: Status::Done,
        report: b"out 1033 1 removed\njoin 1033 1\njoined 553500 1 good\nruns 272384\nticks 553500\nbytes 0\nend script\n",
        ..Row::hello(
            "a reintegration",
            b"poke 1 20 00000005\nt 7 1033\nremove 1\nrevive 1\nt 7 552467\n",
        )
    };
    expect(&rt, &row1)?;
    let row2 = Row {
        file: &SPIN,
        status: Status::Done,
        report: b"out 1033 1 removed\njoin 1033 1\njoined 553500 1 tainted\nruns 272384\nticks 553500\nbytes 0\nend script\n",
        ..Row::hello(
            "a reintegration that is disturbed",
            b"poke 1 20 00000005\nt 7 1033\nremove 1\nrevive 1\npoke 1 20 00000005\nt 7 552467\n",
        )
    };
    expect(&rt, &row2)
}

#[test]
fn a_processor_may_fail_after_another_was_brought_back(rt: HostRuntime) -> Result<(), Fail> {
    let row = Row {
        file: &SPIN,
        status: Status::Done,
        report: b"out 1033 0 differ\njoin 1033 0\njoined 553500 0 good\nout 554533 2 differ\nruns 273408\nticks 554533\nbytes 0\nend script\n",
        ..Row::hello(
            "a fault of another processor after a reintegration",
            b"poke 0 46 00000001\nt 7 1033\nrevive 0\nt 7 552467\npoke 2 46 00000001\nt 7 1033\n",
        )
    };
    expect(&rt, &row)
}

#[test]
fn a_program_that_stores_to_every_page_is_copied_at_the_end(rt: HostRuntime) -> Result<(), Fail> {
    let row = Row {
        file: &SWEEP,
        status: Status::Done,
        report: b"out 0 1 removed\njoin 0 1\njoined 1382399 1 good\nruns 558080\nticks 1382399\nbytes 0\nend script\n",
        ..Row::hello(
            "a reintegration of a program that stores to every page",
            b"remove 1\nrevive 1\nt 7 1382399\n",
        )
    };
    expect(&rt, &row)
}

#[test]
fn an_inbox_holds_64_events(rt: HostRuntime) -> Result<(), Fail> {
    let alloc = rt.alloc();
    let mut script = Vec::new(alloc);
    for _ in 0..65u8 {
        script.extend_from_slice(b"key 61\n")?;
    }
    let row = Row {
        file: &SPIN,
        status: Status::Done,
        report: b"lost 0 key 61\nruns 0\nticks 0\nbytes 0\nend script\n",
        ..Row::hello("65 keys", script.as_slice())
    };
    expect(&rt, &row)
}

#[test]
fn eight_events_are_delivered_at_a_frame_end(rt: HostRuntime) -> Result<(), Fail> {
    let alloc = rt.alloc();
    let mut script = Vec::new(alloc);
    let mut report = Vec::new(alloc);
    for i in 0..17u8 {
        script.extend_from_slice(b"key 61\n")?;
        let line: &[u8] = if i < 8 {
            b"d 1024 key 61\n"
        } else if i < 16 {
            b"d 2048 key 61\n"
        } else {
            b"d 3072 key 61\n"
        };
        report.extend_from_slice(line)?;
    }
    script.extend_from_slice(b"t 7 3099\n")?;
    report.extend_from_slice(b"runs 3072\nticks 3099\nbytes 0\nend script\n")?;
    let row = Row {
        file: &SPIN,
        status: Status::Done,
        report: report.as_slice(),
        ..Row::hello("17 keys", script.as_slice())
    };
    expect(&rt, &row)
}

#[test]
fn a_script_ends_at_its_first_line_that_cannot_run(rt: HostRuntime) -> Result<(), Fail> {
    for (script, status, report) in [
        (
            b"".as_slice(),
            Status::Done,
            b"runs 0\nticks 0\nbytes 0\nend script\n".as_slice(),
        ),
        (
            b"# nothing\n\n",
            Status::Done,
            b"runs 0\nticks 0\nbytes 0\nend script\n",
        ),
        (
            b"t 7 0\n",
            Status::BadLine { line: 1, column: 5 },
            b"runs 0\nticks 0\nbytes 0\nend bad 1 5\n",
        ),
        (
            b"t 7 1099511627777\n",
            Status::TooLong { line: 1 },
            b"runs 0\nticks 0\nbytes 0\nend toolong 1\n",
        ),
    ] {
        let row = Row {
            status,
            report,
            ..Row::hello("a script that runs nothing", script)
        };
        expect(&rt, &row)?;
    }
    let later = Row {
        status: Status::BadLine { line: 2, column: 1 },
        console: b"h",
        report: b"runs 3\nticks 3\nbytes 1\nend bad 2 1\n",
        ..Row::hello("a bad line after ticks", b"t 7 3\nwrong\nt 7 100\n")
    };
    expect(&rt, &later)
}

#[test]
fn the_machine_to_which_a_run_came_is_left(rt: HostRuntime) -> Result<(), Fail> {
    let slow = Row {
        status: Status::Outside {
            line: 1,
            reason: Reason::Slow { p: 0, misses: 5 },
        },
        report: b"runs 0\nticks 4\nbytes 0\nend outside 1 slow 0 5\n",
        ..Row::hello("a clock that is too slow", b"t 6 5\n")
    };
    let left = served(&rt, &slow)?;
    assert_eq!(rt; left.saved(0, 47), 0);
    assert_eq!(rt; left.saved(1, 47), 2);
    assert_eq!(rt; left.saved(2, 47), 2);
    let poked = Row {
        status: Status::Done,
        console: b"hi\n",
        report: b"out 3 0 differ\nruns 8\nticks 8\nbytes 3\nend halt 00000000\n",
        ..Row::hello("a poked register", b"t 7 2\npoke 0 9 00000041\nt 7 100\n")
    };
    let left = served(&rt, &poked)?;
    assert_eq!(rt; left.saved(0, 47), 2);
    assert_eq!(rt; left.saved(1, 47), 8);
    assert_eq!(rt; left.saved(2, 47), 8);
    assert_eq!(rt; left.saved(0, 9), 0x0000_0041);
    assert_eq!(rt; left.saved(1, 9), 0x0000_000A);
    assert_eq!(rt; left.saved(2, 9), 0x0000_000A);
    Ok(())
}
