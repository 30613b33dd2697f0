//! The worked runs, over objects in memory.

mod private_area;
mod scripts;
mod workloads;

use crate::{Status, serve};
use s2_elf::ElfFault;
use s2_io::{MemDesk, MemSink, MemSource, QuietDesk, QuietSink, QuietSource};
use s2_plant::Plant;
use std::process::Abort;
use std::test::Fail;

/// A program that writes `h`, `i` and a line feed to CONOUT and halts with 0, in eight cycles: the file
/// `examples/hello/hello.elf`.
#[rattlefmt::skip]
static HELLO: [u8; 116] = [
    0x7F, 0x45, 0x4C, 0x46, 0x01, 0x02, 0x01, 0x00, 0x00, 0x00, 0x00, 0x00,
    0x00, 0x00, 0x00, 0x00, 0x00, 0x02, 0x00, 0x08, 0x00, 0x00, 0x00, 0x01,
    0x80, 0x01, 0x00, 0x00, 0x00, 0x00, 0x00, 0x34, 0x00, 0x00, 0x00, 0x00,
    0x00, 0x00, 0x00, 0x00, 0x00, 0x34, 0x00, 0x20, 0x00, 0x01, 0x00, 0x00,
    0x00, 0x00, 0x00, 0x00, 0x00, 0x00, 0x00, 0x01, 0x00, 0x00, 0x00, 0x54,
    0x80, 0x01, 0x00, 0x00, 0x80, 0x01, 0x00, 0x00, 0x00, 0x00, 0x00, 0x20,
    0x00, 0x00, 0x00, 0x20, 0x00, 0x00, 0x00, 0x07, 0x00, 0x00, 0x00, 0x04,
    0x3C, 0x08, 0xBF, 0x00, 0x24, 0x09, 0x00, 0x68, 0xAD, 0x09, 0x00, 0x00,
    0x24, 0x09, 0x00, 0x69, 0xAD, 0x09, 0x00, 0x00, 0x24, 0x09, 0x00, 0x0A,
    0xAD, 0x09, 0x00, 0x00, 0xAD, 0x00, 0x00, 0x14,
];

/// A program that writes quotients and remainders of 7 and -7 by 2 and -2, in 155 cycles: the file
/// `examples/division/division.elf`, made from its source by GNU as and ld 2.40. Its bytes are those that a C
/// program prints.
#[rattlefmt::skip]
static DIVISION: [u8; 396] = [
    0x7F, 0x45, 0x4C, 0x46, 0x01, 0x02, 0x01, 0x00, 0x00, 0x00, 0x00, 0x00,
    0x00, 0x00, 0x00, 0x00, 0x00, 0x02, 0x00, 0x08, 0x00, 0x00, 0x00, 0x01,
    0x80, 0x01, 0x00, 0x00, 0x00, 0x00, 0x00, 0x34, 0x00, 0x00, 0x01, 0x14,
    0x00, 0x00, 0x10, 0x01, 0x00, 0x34, 0x00, 0x20, 0x00, 0x01, 0x00, 0x28,
    0x00, 0x03, 0x00, 0x02, 0x00, 0x00, 0x00, 0x01, 0x00, 0x00, 0x00, 0x60,
    0x80, 0x01, 0x00, 0x00, 0x80, 0x01, 0x00, 0x00, 0x00, 0x00, 0x00, 0xA0,
    0x00, 0x00, 0x00, 0xA0, 0x00, 0x00, 0x00, 0x07, 0x00, 0x00, 0x00, 0x10,
    0x00, 0x00, 0x00, 0x00, 0x00, 0x00, 0x00, 0x00, 0x00, 0x00, 0x00, 0x00,
    0x3C, 0x08, 0xBF, 0x00, 0x24, 0x10, 0x00, 0x07, 0x24, 0x11, 0x00, 0x02,
    0x24, 0x12, 0x00, 0x04, 0x02, 0x11, 0x00, 0x1A, 0x00, 0x00, 0x98, 0x12,
    0x00, 0x00, 0xA0, 0x10, 0x02, 0x60, 0x20, 0x21, 0x00, 0x00, 0x00, 0x00,
    0x02, 0x71, 0x00, 0x18, 0x00, 0x00, 0xA8, 0x12, 0x02, 0xB4, 0xA8, 0x20,
    0x16, 0xB0, 0x00, 0x12, 0x00, 0x00, 0x00, 0x00, 0x0C, 0x00, 0x40, 0x20,
    0x00, 0x00, 0x00, 0x00, 0x24, 0x09, 0x00, 0x20, 0xAD, 0x09, 0x00, 0x00,
    0x04, 0x11, 0x00, 0x0D, 0x02, 0x80, 0x20, 0x21, 0x24, 0x09, 0x00, 0x0A,
    0xAD, 0x09, 0x00, 0x00, 0x00, 0x10, 0x80, 0x22, 0x26, 0x52, 0xFF, 0xFF,
    0x32, 0x4A, 0x00, 0x01, 0x15, 0x40, 0x00, 0x02, 0x00, 0x00, 0x00, 0x00,
    0x00, 0x11, 0x88, 0x22, 0x1E, 0x40, 0xFF, 0xE7, 0x00, 0x00, 0x00, 0x00,
    0xAD, 0x00, 0x00, 0x14, 0xAD, 0x15, 0x00, 0x14, 0x04, 0x81, 0x00, 0x03,
    0x24, 0x09, 0x00, 0x2D, 0xAD, 0x09, 0x00, 0x00, 0x00, 0x04, 0x20, 0x23,
    0x24, 0x84, 0x00, 0x30, 0x03, 0xE0, 0x00, 0x08, 0xAD, 0x04, 0x00, 0x00,
    0x00, 0x00, 0x00, 0x00, 0x00, 0x2E, 0x73, 0x68, 0x73, 0x74, 0x72, 0x74,
    0x61, 0x62, 0x00, 0x2E, 0x74, 0x65, 0x78, 0x74, 0x00, 0x00, 0x00, 0x00,
    0x00, 0x00, 0x00, 0x00, 0x00, 0x00, 0x00, 0x00, 0x00, 0x00, 0x00, 0x00,
    0x00, 0x00, 0x00, 0x00, 0x00, 0x00, 0x00, 0x00, 0x00, 0x00, 0x00, 0x00,
    0x00, 0x00, 0x00, 0x00, 0x00, 0x00, 0x00, 0x00, 0x00, 0x00, 0x00, 0x00,
    0x00, 0x00, 0x00, 0x00, 0x00, 0x00, 0x00, 0x0B, 0x00, 0x00, 0x00, 0x01,
    0x00, 0x00, 0x00, 0x07, 0x80, 0x01, 0x00, 0x00, 0x00, 0x00, 0x00, 0x60,
    0x00, 0x00, 0x00, 0xA0, 0x00, 0x00, 0x00, 0x00, 0x00, 0x00, 0x00, 0x00,
    0x00, 0x00, 0x00, 0x10, 0x00, 0x00, 0x00, 0x00, 0x00, 0x00, 0x00, 0x01,
    0x00, 0x00, 0x00, 0x03, 0x00, 0x00, 0x00, 0x00, 0x00, 0x00, 0x00, 0x00,
    0x00, 0x00, 0x01, 0x00, 0x00, 0x00, 0x00, 0x11, 0x00, 0x00, 0x00, 0x00,
    0x00, 0x00, 0x00, 0x00, 0x00, 0x00, 0x00, 0x01, 0x00, 0x00, 0x00, 0x00,
];

/// A program that polls CONIN and writes each key that it reads to CONOUT, for ever.
#[rattlefmt::skip]
static ECHO: [u8; 120] = [
    0x7F, 0x45, 0x4C, 0x46, 0x01, 0x02, 0x01, 0x00, 0x00, 0x00, 0x00, 0x00,
    0x00, 0x00, 0x00, 0x00, 0x00, 0x02, 0x00, 0x08, 0x00, 0x00, 0x00, 0x01,
    0x80, 0x01, 0x00, 0x00, 0x00, 0x00, 0x00, 0x34, 0x00, 0x00, 0x00, 0x00,
    0x00, 0x00, 0x00, 0x00, 0x00, 0x34, 0x00, 0x20, 0x00, 0x01, 0x00, 0x00,
    0x00, 0x00, 0x00, 0x00, 0x00, 0x00, 0x00, 0x01, 0x00, 0x00, 0x00, 0x54,
    0x80, 0x01, 0x00, 0x00, 0x80, 0x01, 0x00, 0x00, 0x00, 0x00, 0x00, 0x24,
    0x00, 0x00, 0x00, 0x24, 0x00, 0x00, 0x00, 0x07, 0x00, 0x00, 0x00, 0x04,
    0x3C, 0x08, 0xBF, 0x00, 0x8D, 0x09, 0x00, 0x04, 0x00, 0x00, 0x00, 0x00,
    0x31, 0x2A, 0x01, 0x00, 0x15, 0x40, 0xFF, 0xFC, 0x00, 0x00, 0x00, 0x00,
    0xAD, 0x09, 0x00, 0x00, 0x08, 0x00, 0x40, 0x01, 0x00, 0x00, 0x00, 0x00,
];

/// A run, and what it must give.
#[derive(Clone, Copy)]
struct Row<'a> {
    name: &'a str,
    words: &'a [&'a str],
    file: &'a [u8],
    desk_fails: &'a [u64],
    script: &'a [u8],
    input_fails: &'a [u64],
    console_fails: &'a [u64],
    report_piece: usize,
    report_fails: &'a [u64],
    status: Status,
    console: &'a [u8],
    report: &'a [u8],
}

impl<'a> Row<'a> {
    /// `run hello` on the given script, with nothing that fails.
    fn hello(name: &'a str, script: &'a [u8]) -> Row<'a> {
        Row {
            name,
            words: &["run", "hello"],
            file: &HELLO,
            desk_fails: &[],
            script,
            input_fails: &[],
            console_fails: &[],
            report_piece: 7,
            report_fails: &[],
            status: Status::Done,
            console: b"",
            report: b"",
        }
    }
}

/// Runs a row and compares; the machine that is left, if one is.
fn ran(rt: &(impl Abort + AllocGlobal), row: &Row) -> Result<Option<Plant>, Fail> {
    let alloc = rt.alloc();
    let mut words = Vec::new(alloc);
    for word in row.words {
        words.push(String::from_str(alloc, word)?)?;
    }
    let mut desk = MemDesk::new(alloc, "hello", row.file, row.desk_fails)?;
    let mut input = MemSource::new(alloc, row.script, 5, row.input_fails)?;
    let mut console = MemSink::new(alloc, 64, 64, row.console_fails)?;
    assert!(rt; 0 < row.report_piece);
    let mut report = MemSink::new(alloc, 512, row.report_piece, row.report_fails)?;
    let mut last = None;
    let status = serve(
        alloc,
        words.as_slice(),
        &mut desk,
        &mut input,
        &mut console,
        &mut report,
        &mut last,
    );
    let name = row.name;
    assert_eq!(rt; status, row.status, "status of {name}");
    assert_eq!(rt; console.taken(), row.console, "console of {name}");
    assert_eq!(rt; report.taken(), row.report, "report of {name}");
    Ok(last)
}

/// Runs a row and compares; the machine that must be left.
fn served(rt: &(impl Abort + AllocGlobal), row: &Row) -> Result<Plant, Fail> {
    match ran(rt, row)? {
        Some(machine) => Ok(machine),
        None => Err(Fail::from("no machine is left")),
    }
}

/// Runs a row and compares.
fn expect(rt: &(impl Abort + AllocGlobal), row: &Row) -> Result<(), Fail> {
    let _ = ran(rt, row)?;
    Ok(())
}

const HELLO_REPORT: &[u8] = b"runs 8\nticks 8\nbytes 3\nend halt 00000000\n";

#[test]
fn hello_writes_its_bytes_and_the_end_lines(rt: HostRuntime) -> Result<(), Fail> {
    for script in [
        b"t 7 2000\n".as_slice(),
        b"t 7 8",
        b"t 7 1099511627776\nanything",
    ] {
        let row = Row {
            status: Status::Done,
            console: b"hi\n",
            report: HELLO_REPORT,
            ..Row::hello("hello", script)
        };
        expect(&rt, &row)?;
    }
    Ok(())
}

#[test]
fn hello_writes_the_same_over_objects_that_never_fail(rt: HostRuntime) -> Result<(), Fail> {
    let alloc = rt.alloc();
    let mut words = Vec::new(alloc);
    for word in ["run", "hello"] {
        words.push(String::from_str(alloc, word)?)?;
    }
    let mut desk = QuietDesk::new(alloc, "hello", &HELLO)?;
    let mut input = QuietSource::new(alloc, b"t 7 2000\n", 5)?;
    let mut console = QuietSink::new(alloc, 64, 64)?;
    let mut report = QuietSink::new(alloc, 256, 7)?;
    let status = serve(
        alloc,
        words.as_slice(),
        &mut desk,
        &mut input,
        &mut console,
        &mut report,
        &mut None,
    );
    assert_eq!(rt; status, Status::Done);
    assert_eq!(rt; console.taken(), b"hi\n".as_slice());
    assert_eq!(rt; report.taken(), HELLO_REPORT);
    Ok(())
}

#[test]
fn a_program_of_many_rows_writes_what_c_prints(rt: HostRuntime) -> Result<(), Fail> {
    let row = Row {
        file: &DIVISION,
        status: Status::Done,
        console: b"3 1\n-3 -1\n-3 1\n3 -1\n",
        report: b"runs 155\nticks 155\nbytes 20\nend halt 00000000\n",
        ..Row::hello("division", b"t 7 2000\n")
    };
    expect(&rt, &row)
}

#[test]
fn a_failing_write_and_a_failing_desk_end_the_run(rt: HostRuntime) -> Result<(), Fail> {
    let third_write = Row {
        console_fails: &[3],
        status: Status::WriteFault,
        console: b"hi",
        ..Row::hello("a console that fails at its third write", b"t 7 2000\n")
    };
    expect(&rt, &third_write)?;
    let first_call = Row {
        desk_fails: &[1],
        status: Status::ReadFault,
        ..Row::hello("a desk that fails at its first call", b"t 7 2000\n")
    };
    expect(&rt, &first_call)
}

#[test]
fn the_input_is_read_to_its_line_and_not_again_after_its_end(rt: HostRuntime) -> Result<(), Fail> {
    // the line `t 7 8` without a line feed takes five reads for its bytes and one that tells the end
    let rows = [
        (b"t 7 8".as_slice(), 1, Status::ReadFault),
        (b"t 7 8", 6, Status::ReadFault),
        (b"t 7 8", 7, Status::Done),
        (b"t 7 8\n", 6, Status::ReadFault),
        (b"t 7 8\n", 7, Status::Done),
    ];
    for (script, failing, status) in rows {
        let is_done = status == Status::Done;
        let row = Row {
            input_fails: &[failing],
            status,
            console: if is_done { b"hi\n" } else { b"" },
            report: if is_done { HELLO_REPORT } else { b"" },
            ..Row::hello("an input that fails at one read", script)
        };
        expect(&rt, &row)?;
    }
    Ok(())
}

#[test]
fn a_report_line_is_one_write(rt: HostRuntime) -> Result<(), Fail> {
    // the number of the write that fails, and what the report has then: the lines before it, whole
    let rows = [
        (1, Status::WriteFault, b"".as_slice()),
        (2, Status::WriteFault, b"runs 8\n"),
        (3, Status::WriteFault, b"runs 8\nticks 8\n"),
        (4, Status::WriteFault, b"runs 8\nticks 8\nbytes 3\n"),
        (5, Status::Done, HELLO_REPORT),
    ];
    for (failing, status, report) in rows {
        let row = Row {
            report_piece: 64,
            report_fails: &[failing],
            status,
            console: b"hi\n",
            report,
            ..Row::hello("a report that fails at one write", b"t 7 2000\n")
        };
        expect(&rt, &row)?;
    }
    Ok(())
}

#[test]
fn a_file_of_exactly_the_limit_is_judged(rt: HostRuntime) -> Result<(), Fail> {
    let file = vec![in rt.alloc(); 0u8; 4_194_304]?;
    let row = Row {
        file: file.as_slice(),
        status: Status::Elf(ElfFault::Magic),
        report: b"elf magic\n",
        ..Row::hello("a file of exactly the limit", b"t 7 2000\n")
    };
    expect(&rt, &row)
}

#[test]
fn words_that_ask_for_nothing_are_answered_with_the_usage(rt: HostRuntime) -> Result<(), Fail> {
    for words in [
        [].as_slice(),
        &["run"],
        &["walk"],
        &["walk", "hello"],
        &["run", "hello", "hello"],
        &["check", "hello"],
        &["load", "0"],
        &["load", "01"],
        &["load", "1001"],
        &["load", ""],
        &["load"],
    ] {
        let row = Row {
            words,
            status: Status::Usage,
            report: b"usage\n",
            ..Row::hello("words that ask for nothing", b"t 7 2000\n")
        };
        expect(&rt, &row)?;
    }
    Ok(())
}

#[test]
fn a_name_may_be_empty(rt: HostRuntime) -> Result<(), Fail> {
    let row = Row {
        words: &["run", ""],
        status: Status::ReadFault,
        ..Row::hello("an empty name, which the desk does not hold", b"t 7 2000\n")
    };
    expect(&rt, &row)
}

#[test]
fn a_file_that_is_cut_is_refused_with_its_text(rt: HostRuntime) -> Result<(), Fail> {
    for (size, fault, report) in [
        (0usize, ElfFault::Short(0), b"elf short 0\n".as_slice()),
        (51, ElfFault::Short(51), b"elf short 51\n"),
        (83, ElfFault::TableOutside, b"elf tableoutside\n"),
        (115, ElfFault::FileOutside(0), b"elf fileoutside 0\n"),
    ] {
        let row = Row {
            file: &HELLO[..size],
            status: Status::Elf(fault),
            report,
            ..Row::hello("a file that is cut", b"t 7 2000\n")
        };
        expect(&rt, &row)?;
    }
    Ok(())
}

/// `check` of the given script, with nothing that fails.
fn checked<'a>(script: &'a [u8], status: Status, report: &'a [u8]) -> Row<'a> {
    Row {
        words: &["check"],
        status,
        report,
        ..Row::hello("a check", script)
    }
}

#[test]
fn a_script_is_checked_to_its_first_bad_line(rt: HostRuntime) -> Result<(), Fail> {
    for script in [
        b"".as_slice(),
        b"\n",
        b"t 7 5",
        b"t 7 5\n",
        b"\n\n# a comment\ntick\nkey 41\n",
    ] {
        expect(&rt, &checked(script, Status::Done, b"ok\n"))?;
    }
    for (script, line, column, report) in [
        (b"t 7 0".as_slice(), 1u64, 5u32, b"bad 1 5\n".as_slice()),
        (b"t 7 0\n", 1, 5, b"bad 1 5\n"),
        (b"\ntick\nt 7 5\r\nwrong\n", 3, 6, b"bad 3 6\n"),
        (b"tick\n\nrevive", 3, 7, b"bad 3 7\n"),
        (b"version 2 63\n", 1, 13, b"bad 1 13\n"),
        (b"version 2 4097\n", 1, 14, b"bad 1 14\n"),
        (b"tick\nversion 2 64\n", 2, 1, b"bad 2 1\n"),
    ] {
        expect(
            &rt,
            &checked(script, Status::BadLine { line, column }, report),
        )?;
    }
    Ok(())
}

#[test]
fn a_comment_has_at_most_128_bytes(rt: HostRuntime) -> Result<(), Fail> {
    let script = vec![in rt.alloc(); b'#'; 129]?;
    let bad = Status::BadLine {
        line: 1,
        column: 129,
    };
    expect(
        &rt,
        &checked(&script.as_slice()[..128], Status::Done, b"ok\n"),
    )?;
    expect(&rt, &checked(script.as_slice(), bad, b"bad 1 129\n"))
}

/// `single hello` on the given report, with nothing that fails.
fn replayed<'a>(report_read: &'a [u8], status: Status, report: &'a [u8]) -> Row<'a> {
    Row {
        words: &["single", "hello"],
        status,
        console: b"hi\n",
        report,
        ..Row::hello("a replay", report_read)
    }
}

#[test]
fn a_report_is_replayed_to_its_runs(rt: HostRuntime) -> Result<(), Fail> {
    let halted: &[u8] = b"runs 8\nbytes 3\nend halt 00000000\n";
    for report_read in [
        HELLO_REPORT,
        b"runs 9\nticks 9\nbytes 4\nend script\n",
        b"d 8 tick\nruns 1000\nticks 1000\nbytes 3\nend halt 00000000",
    ] {
        expect(&rt, &replayed(report_read, Status::Done, halted))?;
    }
    let stopped = Row {
        console: b"hi",
        ..replayed(
            b"runs 5\nticks 5\nbytes 2\nend script\n",
            Status::Done,
            b"runs 5\nbytes 2\nend report\n",
        )
    };
    expect(&rt, &stopped)?;
    let key = Row {
        file: &ECHO,
        console: b"A",
        ..replayed(
            b"d 1024 key 41\nruns 1032\nticks 1041\nbytes 1\nend script\n",
            Status::Done,
            b"runs 1032\nbytes 1\nend report\n",
        )
    };
    expect(&rt, &key)
}

#[test]
fn a_report_is_bad_where_it_goes_wrong(rt: HostRuntime) -> Result<(), Fail> {
    for (report_read, line, column, report) in [
        (
            b"runs 8\n".as_slice(),
            2u64,
            1u32,
            b"runs 8\nbytes 3\nend bad 2 1\n".as_slice(),
        ),
        (b"runs 8\nwrong\n", 2, 1, b"runs 8\nbytes 3\nend bad 2 1\n"),
        (
            b"d 9 tick\nd 8 tick\n",
            2,
            3,
            b"runs 8\nbytes 3\nend bad 2 3\n",
        ),
        (
            b"d 9 key 41\nruns 8\n",
            2,
            6,
            b"runs 8\nbytes 3\nend bad 2 6\n",
        ),
    ] {
        let status = Status::BadLine { line, column };
        expect(&rt, &replayed(report_read, status, report))?;
    }
    let empty = Row {
        console: b"",
        ..replayed(
            b"",
            Status::BadLine { line: 1, column: 1 },
            b"runs 0\nbytes 0\nend bad 1 1\n",
        )
    };
    expect(&rt, &empty)
}

#[test]
fn a_fault_ends_a_replay_at_once(rt: HostRuntime) -> Result<(), Fail> {
    let second_write = Row {
        console_fails: &[2],
        console: b"h",
        ..replayed(HELLO_REPORT, Status::WriteFault, b"")
    };
    expect(&rt, &second_write)?;
    let second_line = Row {
        report_piece: 64,
        report_fails: &[2],
        ..replayed(HELLO_REPORT, Status::WriteFault, b"runs 8\n")
    };
    expect(&rt, &second_line)?;
    // the eighth read is that of the first byte of the second line
    let second_read = Row {
        input_fails: &[8],
        ..replayed(HELLO_REPORT, Status::ReadFault, b"")
    };
    expect(&rt, &second_read)
}

#[test]
fn an_input_that_has_told_its_end_is_not_read_again(rt: HostRuntime) -> Result<(), Fail> {
    // 40 bytes without the last line feed: the next read tells the end
    let open_report: &[u8] = b"runs 8\nticks 8\nbytes 3\nend halt 00000000";
    let end_read = Row {
        input_fails: &[41],
        ..replayed(open_report, Status::ReadFault, b"")
    };
    expect(&rt, &end_read)?;
    let after_end = Row {
        input_fails: &[42],
        ..replayed(
            open_report,
            Status::Done,
            b"runs 8\nbytes 3\nend halt 00000000\n",
        )
    };
    expect(&rt, &after_end)?;
    let checked_end = Row {
        input_fails: &[7],
        ..checked(b"t 7 5", Status::Done, b"ok\n")
    };
    expect(&rt, &checked_end)
}

#[test]
fn a_replay_is_the_same_over_objects_that_never_fail(rt: HostRuntime) -> Result<(), Fail> {
    let alloc = rt.alloc();
    let mut words = Vec::new(alloc);
    for word in ["single", "hello"] {
        words.push(String::from_str(alloc, word)?)?;
    }
    let mut desk = QuietDesk::new(alloc, "hello", &HELLO)?;
    let mut input = QuietSource::new(alloc, HELLO_REPORT, 5)?;
    let mut console = QuietSink::new(alloc, 64, 64)?;
    let mut report = QuietSink::new(alloc, 256, 7)?;
    let status = serve(
        alloc,
        words.as_slice(),
        &mut desk,
        &mut input,
        &mut console,
        &mut report,
        &mut None,
    );
    assert_eq!(rt; status, Status::Done);
    assert_eq!(rt; console.taken(), b"hi\n".as_slice());
    assert_eq!(rt;
        report.taken(),
        b"runs 8\nbytes 3\nend halt 00000000\n".as_slice()
    );
    Ok(())
}

#[test]
fn a_file_above_the_limit_is_too_big(rt: HostRuntime) -> Result<(), Fail> {
    let file = vec![in rt.alloc(); 0u8; 4_194_305]?;
    let row = Row {
        file: file.as_slice(),
        status: Status::TooBig { limit: 4_194_304 },
        report: b"toobig\n",
        ..Row::hello("a file above the limit", b"t 7 2000\n")
    };
    expect(&rt, &row)
}

#[test]
fn a_status_has_its_number(rt: HostRuntime) {
    assert_eq!(rt; Status::Done.number(), 0);
    assert_eq!(rt; Status::Usage.number(), 2);
}
