//! The private-write area: the processors' own values, printed and replayed.

use super::{Row, expect};
use crate::Status;
use std::test::Fail;

/// A program that writes the byte 0, stores to PRIV and halts with the slot of processor 1, in six cycles.
#[rattlefmt::skip]
static PRIVATE: [u8; 108] = [
    0x7F, 0x45, 0x4C, 0x46, 0x01, 0x02, 0x01, 0x00, 0x00, 0x00, 0x00, 0x00,
    0x00, 0x00, 0x00, 0x00, 0x00, 0x02, 0x00, 0x08, 0x00, 0x00, 0x00, 0x01,
    0x80, 0x01, 0x00, 0x00, 0x00, 0x00, 0x00, 0x34, 0x00, 0x00, 0x00, 0x00,
    0x00, 0x00, 0x00, 0x00, 0x00, 0x34, 0x00, 0x20, 0x00, 0x01, 0x00, 0x00,
    0x00, 0x00, 0x00, 0x00, 0x00, 0x00, 0x00, 0x01, 0x00, 0x00, 0x00, 0x54,
    0x80, 0x01, 0x00, 0x00, 0x80, 0x01, 0x00, 0x00, 0x00, 0x00, 0x00, 0x18,
    0x00, 0x00, 0x00, 0x18, 0x00, 0x00, 0x00, 0x07, 0x00, 0x00, 0x00, 0x04,
    0x3C, 0x08, 0xBF, 0x00, 0xAD, 0x00, 0x00, 0x00, 0xAD, 0x00, 0x00, 0x18,
    0x8D, 0x09, 0x00, 0x20, 0x00, 0x00, 0x00, 0x00, 0xAD, 0x09, 0x00, 0x14,
];

#[test]
fn each_processor_prints_its_own_value(rt: HostRuntime) -> Result<(), Fail> {
    let row = Row {
        file: &PRIVATE,
        status: Status::Done,
        console: b"\0",
        report: b"d 2 private 7 3 7\nruns 6\nticks 10\nbytes 1\nend halt 00000003\n",
        ..Row::hello(
            "a processor that starts four ticks later",
            b"t 5 4\nt 7 100\n",
        )
    };
    expect(&rt, &row)
}

#[test]
fn a_late_processor_has_no_value(rt: HostRuntime) -> Result<(), Fail> {
    let row = Row {
        file: &PRIVATE,
        status: Status::Done,
        console: b"\0",
        report: b"out 130 2 late\nd 2 private 131 131 256\nruns 6\nticks 134\nbytes 1\nend halt 00000083\n",
        ..Row::hello("a processor that is muted", b"mute 2\nt 7 200\n")
    };
    expect(&rt, &row)
}

#[test]
fn one_processor_replays_the_printed_values(rt: HostRuntime) -> Result<(), Fail> {
    let row = Row {
        words: &["single", "hello"],
        file: &PRIVATE,
        status: Status::Done,
        console: b"\0",
        report: b"runs 6\nbytes 1\nend halt 00000003\n",
        ..Row::hello(
            "the report of the processor that starts later",
            b"d 2 private 7 3 7\nruns 6\nticks 10\nbytes 1\nend halt 00000003\n",
        )
    };
    expect(&rt, &row)
}

#[test]
fn a_value_above_the_greatest_is_bad(rt: HostRuntime) -> Result<(), Fail> {
    let row = Row {
        words: &["single", "hello"],
        file: &PRIVATE,
        status: Status::BadLine {
            line: 1,
            column: 19,
        },
        report: b"runs 0\nbytes 0\nend bad 1 19\n",
        ..Row::hello("a value of 257", b"d 2 private 7 3 257\n")
    };
    expect(&rt, &row)
}
