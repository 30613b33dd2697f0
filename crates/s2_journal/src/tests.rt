//! Lines of reports with what they say, as written by hand from the table of `docs/FORMATS.md`, and columns
//! counted by hand.

use crate::{
    BadLine, Count, End, Note, Reason, ReportLine, ReportOrder, Why, put_count, put_end, put_note,
    read_report,
};
use s2_ports::Event;

/// Each note with its line, at the greatest numbers that are read, and what a reader keeps of it.
#[rattlefmt::skip]
static NOTES: [(&[u8], Note, ReportLine); 14] = [
    (b"d 1099511627776 tick", Note::Delivered { run: 1099511627776, event: Event::Tick }, ReportLine::Delivery { run: 1099511627776, event: Event::Tick }),
    (b"d 0 key ff", Note::Delivered { run: 0, event: Event::Key(255) }, ReportLine::Delivery { run: 0, event: Event::Key(255) }),
    (b"out 1099511627776 2 differ", Note::Out { tick: 1099511627776, p: 2, why: Why::Differ }, ReportLine::Other),
    (b"out 9 0 late", Note::Out { tick: 9, p: 0, why: Why::Late }, ReportLine::Other),
    (b"out 9 1 removed", Note::Out { tick: 9, p: 1, why: Why::Removed }, ReportLine::Other),
    (b"lost 1099511627776 tick", Note::Lost { tick: 1099511627776, event: Event::Tick }, ReportLine::Other),
    (b"lost 9 key 0a", Note::Lost { tick: 9, event: Event::Key(10) }, ReportLine::Other),
    (b"repair 9 1 262143", Note::Repaired { tick: 9, board: 1, index: 262143 }, ReportLine::Other),
    (b"board 9 1", Note::BoardDead { tick: 9, board: 1 }, ReportLine::Other),
    (b"mend 1099511627776 0", Note::Mend { tick: 1099511627776, board: 0 }, ReportLine::Other),
    (b"mended 9 1", Note::Mended { tick: 9, board: 1 }, ReportLine::Other),
    (b"join 9 2", Note::Join { tick: 9, p: 2 }, ReportLine::Other),
    (b"joined 9 2 good", Note::Joined { tick: 9, p: 2, good: true }, ReportLine::Other),
    (b"joined 9 2 tainted", Note::Joined { tick: 9, p: 2, good: false }, ReportLine::Other),
];

#[test]
fn each_note_is_written_and_read(rt: HostRuntime) {
    for (line, note, said) in &NOTES {
        assert_eq!(rt; put_note(note).as_slice(), *line);
        assert_eq!(rt; read_report(line), Ok(*said));
    }
}

/// Each end with its line.
#[rattlefmt::skip]
static ENDS: [(&[u8], End); 8] = [
    (b"end script", End::Script),
    (b"end halt 00c0ffee", End::Halt(0x00C0_FFEE)),
    (b"end bad 18446744073709551615 4294967295", End::Bad { line: 18446744073709551615, column: 4294967295 }),
    (b"end outside 7 second 2 1", End::Outside { line: 7, reason: Reason::Second { tainted: 2, named: 1 } }),
    (b"end outside 7 slow 2 64", End::Outside { line: 7, reason: Reason::Slow { p: 2, misses: 64 } }),
    (b"end outside 7 board 1", End::Outside { line: 7, reason: Reason::BothBoards { board: 1 } }),
    (b"end toolong 18446744073709551615", End::TooLong { line: 18446744073709551615 }),
    (b"end report", End::Report),
];

#[test]
fn each_end_is_written_and_read(rt: HostRuntime) {
    for (line, end) in &ENDS {
        assert_eq!(rt; put_end(end).as_slice(), *line);
        assert_eq!(rt; read_report(line), Ok(ReportLine::End));
    }
}

#[test]
fn each_count_is_written_and_read(rt: HostRuntime) {
    assert_eq!(rt;
        put_count(Count::Runs, 1032).as_slice(),
        b"runs 1032".as_slice()
    );
    assert_eq!(rt;
        put_count(Count::Ticks, 0).as_slice(),
        b"ticks 0".as_slice()
    );
    assert_eq!(rt;
        put_count(Count::Bytes, 3).as_slice(),
        b"bytes 3".as_slice()
    );
    assert_eq!(rt;
        read_report(b"runs 1099511627776"),
        Ok(ReportLine::Runs(1099511627776))
    );
    assert_eq!(rt; read_report(b"ticks 1099511627776"), Ok(ReportLine::Ticks));
    assert_eq!(rt;
        read_report(b"bytes 18446744073709551615"),
        Ok(ReportLine::Bytes)
    );
}

/// Lines that are bad, and their columns.
#[rattlefmt::skip]
static BAD: [(&[u8], u32); 30] = [
    (b"", 1),
    (b"#", 1),
    (b"d 1099511627777 tick", 15),
    (b"d 10995116277760 tick", 16),
    (b"d 01 tick", 4),
    (b"d 7 tock", 6),
    (b"d 7 key f", 10),
    (b"d 7 key FF", 9),
    (b"d 7  tick", 5),
    (b"d 7 tick ", 9),
    (b"out 1099511627777 0 late", 17),
    (b"out 9 3 late", 7),
    (b"out 9 0 lost", 10),
    (b"lost 9 ticks", 12),
    (b"repair 9 2 0", 10),
    (b"repair 9 0 262144", 17),
    (b"board 9 2", 9),
    (b"join 9 3", 8),
    (b"joined 9 2", 11),
    (b"joined 9 2 bad", 12),
    (b"runs 1099511627777", 18),
    (b"ticks 1099511627777", 19),
    (b"bytes 18446744073709551616", 26),
    (b"end", 4),
    (b"end halt 00C0ffee", 12),
    (b"end bad 7", 10),
    (b"end outside 7 third 0 0", 15),
    (b"end outside 7 slow 0 65", 23),
    (b"end toolong 18446744073709551616", 32),
    (b"end reports", 11),
];

#[test]
fn a_bad_line_names_its_column(rt: HostRuntime) {
    for (line, column) in &BAD {
        assert_eq!(rt; read_report(line), Err(BadLine { column: *column }));
    }
    let long = [b'd'; 1000];
    assert_eq!(rt; read_report(&long), Err(BadLine { column: 2 }));
}

#[test]
fn a_report_is_taken_line_by_line(rt: HostRuntime) {
    let mut order = ReportOrder::new();
    for line in [
        b"d 8 tick".as_slice(),
        b"lost 9 tick",
        b"d 8 key 0a",
        b"runs 8",
    ] {
        assert!(rt; order.take(line).is_ok());
        assert_eq!(rt; order.finish(), Err(BadLine { column: 1 }));
    }
    assert!(rt; order.take(b"ticks 12").is_ok());
    assert!(rt; order.take(b"bytes 3").is_ok());
    assert!(rt; order.take(b"end halt 00000000").is_ok());
    assert_eq!(rt; order.finish(), Ok(()));
}

#[test]
fn a_line_of_the_wrong_sort_is_bad_at_column_1(rt: HostRuntime) {
    let mut order = ReportOrder::new();
    for line in [
        b"ticks 0".as_slice(),
        b"bytes 0",
        b"end script",
        b"end report",
    ] {
        assert_eq!(rt; order.take(line), Err(BadLine { column: 1 }));
    }
    assert!(rt; order.take(b"runs 0").is_ok());
    for line in [b"runs 0".as_slice(), b"d 0 tick", b"join 1 0", b"bytes 0"] {
        assert_eq!(rt; order.take(line), Err(BadLine { column: 1 }));
    }
    assert!(rt; order.take(b"ticks 0").is_ok());
    assert!(rt; order.take(b"bytes 0").is_ok());
    assert_eq!(rt; order.take(b"end report"), Err(BadLine { column: 1 }));
    assert_eq!(rt; order.take(b"end repor"), Err(BadLine { column: 10 }));
    assert!(rt; order.take(b"end script").is_ok());
    for line in [b"end script".as_slice(), b"join 1 0", b"runs 0"] {
        assert_eq!(rt; order.take(line), Err(BadLine { column: 1 }));
    }
    assert_eq!(rt; order.finish(), Ok(()));
}

#[test]
fn a_run_count_that_falls_back_is_bad_where_it_stands(rt: HostRuntime) {
    let mut order = ReportOrder::new();
    assert!(rt; order.take(b"d 8 tick").is_ok());
    assert_eq!(rt; order.take(b"d 7 tick"), Err(BadLine { column: 3 }));
    assert_eq!(rt; order.take(b"runs 7"), Err(BadLine { column: 6 }));
    assert!(rt; order.take(b"runs 8").is_ok());
}
