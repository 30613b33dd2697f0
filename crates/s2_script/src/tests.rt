//! Lines of scripts with what they say, as written by hand from the table of `docs/FORMATS.md`, and columns
//! counted by hand.

use crate::{Act, BadLine, Entry, First, proper, put_entry, read_entry, read_first};
use s2_ports::{BoardFault, Event, Kind, Posted, Request};

/// The entry of `drive 2 s 00000000 00000000 15 0 0`.
const DRIVE: Entry = Entry::One(Act::Drive {
    p: 2,
    posted: Posted {
        request: Request {
            kind: Kind::Store,
            address: 0,
            word: 0,
            mask: 15,
            run: 0,
        },
        seen: 0,
    },
});

/// Each kind of line, with the greatest numbers of its fields.
#[rattlefmt::skip]
static ENTRIES: [(&[u8], Entry); 20] = [
    (b"t 7 18446744073709551615", Entry::Ticks { mask: 7, n: 18446744073709551615 }),
    (b"t 0 1", Entry::Ticks { mask: 0, n: 1 }),
    (b"tick", Entry::One(Act::Event(Event::Tick))),
    (b"key ff", Entry::One(Act::Event(Event::Key(255)))),
    (b"key 09", Entry::One(Act::Event(Event::Key(9)))),
    (b"poke 2 175 ffffffff", Entry::One(Act::Poke { p: 2, k: 175, v: 0xFFFF_FFFF })),
    (b"local 2 278527 0123abcd", Entry::One(Act::PokeLocal { p: 2, i: 278527, v: 0x0123_ABCD })),
    (b"drive 2 s 00000000 00000000 15 0 0", DRIVE),
    (b"drive 0 y 00000000 00000000 0 18446744073709551615 18446744073709551615", Entry::One(Act::Drive {
        p: 0,
        posted: Posted {
            request: Request { kind: Kind::Sync, address: 0, word: 0, mask: 0, run: 18446744073709551615 },
            seen: 18446744073709551615,
        },
    })),
    (b"drive 1 l 1f000004 fffffffe 15 1024 3", Entry::One(Act::Drive {
        p: 1,
        posted: Posted {
            request: Request { kind: Kind::Load, address: 0x1F00_0004, word: 0xFFFF_FFFE, mask: 15, run: 1024 },
            seen: 3,
        },
    })),
    (b"mute 0", Entry::One(Act::Mute { p: 0 })),
    (b"mute 2", Entry::One(Act::Mute { p: 2 })),
    (b"remove 2", Entry::One(Act::Remove { p: 2 })),
    (b"revive 2", Entry::One(Act::Revive { p: 2 })),
    (b"dead 0", Entry::One(Act::Board(BoardFault::Dead { board: 0 }))),
    (b"dead 1", Entry::One(Act::Board(BoardFault::Dead { board: 1 }))),
    (b"flip 1 262143 31", Entry::One(Act::Board(BoardFault::Flip { board: 1, index: 262143, bit: 31 }))),
    (b"flip 0 0 0", Entry::One(Act::Board(BoardFault::Flip { board: 0, index: 0, bit: 0 }))),
    (b"mend 1", Entry::One(Act::Mend { board: 1 })),
    (b"poke 0 0 00000000", Entry::One(Act::Poke { p: 0, k: 0, v: 0 })),
];

#[test]
fn each_kind_of_line_is_read_and_written(rt: HostRuntime) {
    for (line, entry) in &ENTRIES {
        assert_eq!(rt; read_entry(line), Ok(Some(*entry)));
        assert!(rt; proper(entry));
        assert_eq!(rt; put_entry(entry).as_slice(), *line);
    }
}

#[test]
fn empty_lines_and_comments_say_nothing(rt: HostRuntime) {
    let comment = [b'#'; 128];
    for line in [
        b"".as_slice(),
        b"#",
        b"#t 7 1",
        b"# any \r\t\xff bytes",
        &comment,
    ] {
        assert_eq!(rt; read_entry(line), Ok(None));
    }
}

/// Lines that are bad, and their columns.
#[rattlefmt::skip]
static BAD: [(&[u8], u32); 46] = [
    // The first number above each range: as many of its digits count as still are in the range.
    (b"t 8 1", 3),
    (b"t 7 0", 5),
    (b"t 7 18446744073709551616", 24),
    (b"t 7 184467440737095516150", 25),
    (b"poke 3 0 00000000", 6),
    (b"poke 0 176 00000000", 10),
    (b"local 0 278528 00000000", 14),
    (b"drive 0 s 00000000 00000000 16 0 0", 30),
    (b"drive 0 s 00000000 00000000 15 18446744073709551616 0", 51),
    (b"mute 3", 6),
    (b"remove 3", 8),
    (b"revive 3", 8),
    (b"dead 2", 6),
    (b"mend 2", 6),
    (b"flip 2 0 0", 6),
    (b"flip 0 262144 0", 13),
    (b"flip 0 0 32", 11),
    // Leading zeros, and none at all.
    (b"t 07 1", 4),
    (b"t 7 01", 5),
    (b"poke 0 00 00000000", 9),
    (b"t  7 1", 3),
    (b"t 7  1", 5),
    (b"t 7 1 ", 6),
    (b"tick ", 5),
    (b" tick", 1),
    (b"t 7 1\r", 6),
    (b"tick\r", 5),
    (b"\r", 1),
    (b"t\t7 1", 2),
    (b"t 7\t1", 4),
    // Capital digits, seven and nine digits.
    (b"key FF", 5),
    (b"key 0A", 6),
    (b"key f", 6),
    (b"key fff", 7),
    (b"poke 0 0 0000000", 17),
    (b"poke 0 0 000000000", 18),
    (b"poke 0 0 0000000 ", 17),
    (b"local 0 0 0000000g", 18),
    // Words that are no names, and names cut short.
    (b"T 7 1", 1),
    (b"ticks", 5),
    (b"tock", 2),
    (b"rem", 4),
    (b"revoke 0", 4),
    (b"drive 2 x 00000000 00000000 15 0 0", 9),
    (b"drive 2 S 00000000 00000000 15 0 0", 9),
    (b"flip 0 0", 9),
];

#[test]
fn a_bad_line_names_its_column(rt: HostRuntime) {
    for (line, column) in &BAD {
        assert_eq!(rt; read_entry(line), Err(BadLine { column: *column }));
    }
}

#[test]
fn a_comment_of_129_bytes_is_bad_at_column_129(rt: HostRuntime) {
    let comment = [b'#'; 300];
    assert_eq!(rt; read_entry(&comment[..129]), Err(BadLine { column: 129 }));
    assert_eq!(rt; read_entry(&comment), Err(BadLine { column: 129 }));
}

#[test]
fn each_front_of_a_line_is_bad_at_its_end(rt: HostRuntime) {
    let line = b"drive 2 s 00000000 00000000 15 0 0";
    for length in 1..line.len() {
        assert_eq!(rt;
            read_entry(&line[..length]),
            Err(BadLine {
                column: length as u32 + 1
            })
        );
    }
    assert_eq!(rt; read_entry(line), Ok(Some(DRIVE)));
}

#[test]
fn an_entry_with_a_number_above_its_range_is_not_proper(rt: HostRuntime) {
    for entry in [
        Entry::Ticks { mask: 8, n: 1 },
        Entry::Ticks { mask: 7, n: 0 },
        Entry::One(Act::Poke { p: 0, k: 176, v: 0 }),
        Entry::One(Act::PokeLocal {
            p: 0,
            i: 278_528,
            v: 0,
        }),
        Entry::One(Act::Mute { p: 3 }),
        Entry::One(Act::Remove { p: 3 }),
        Entry::One(Act::Revive { p: 3 }),
        Entry::One(Act::Board(BoardFault::Dead { board: 2 })),
        Entry::One(Act::Board(BoardFault::Flip {
            board: 0,
            index: 262_144,
            bit: 0,
        })),
        Entry::One(Act::Board(BoardFault::Flip {
            board: 0,
            index: 0,
            bit: 32,
        })),
    ] {
        assert!(rt; !proper(&entry));
    }
}

/// First lines that are no version line, with the column.
const BAD_FIRST_LINES: [(&[u8], u32); 8] = [
    (b"version 2 63", 13),
    (b"version 2 4097", 14),
    (b"version 2 064", 11),
    (b"version 2", 10),
    (b"version 1 64", 9),
    (b"version 2 64 ", 13),
    (b"v", 2),
    (b"tickk", 5),
];

#[test]
fn the_first_line_may_choose_the_frame(rt: HostRuntime) {
    assert_eq!(rt; read_first(b"version 2 64"), Ok(First::Frame(64)));
    assert_eq!(rt; read_first(b"version 2 4096"), Ok(First::Frame(4096)));
    let tick = Entry::One(Act::Event(Event::Tick));
    assert_eq!(rt; read_first(b"tick"), Ok(First::Entry(Some(tick))));
    assert_eq!(rt; read_first(b"# version 2 64"), Ok(First::Entry(None)));
    assert_eq!(rt; read_entry(b"version 2 64"), Err(BadLine { column: 1 }));
    for (line, column) in &BAD_FIRST_LINES {
        assert_eq!(rt; read_first(line), Err(BadLine { column: *column }));
    }
}
