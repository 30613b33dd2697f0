//! Numbers and lines as written by hand from their rules, and generic code at a concrete type.

use crate::{
    BadLine, Fed, HELD_BYTES, Lines, Stop, Text, either, end, hex, name, number, put_dec, put_hex,
    put_signed, put_word, read_dec, read_hex, signed, with_remarks, without_remarks, word,
};

/// Texts, the greatest number that is taken, and the number that they are.
#[rattlefmt::skip]
static DECIMALS: [(&[u8], u64, Option<u64>); 13] = [
    (b"0", 0, Some(0)),
    (b"7", 9, Some(7)),
    (b"1000", 1000, Some(1000)),
    (b"1001", 1000, None),
    (b"18446744073709551615", 18446744073709551615, Some(18446744073709551615)),
    (b"18446744073709551616", 18446744073709551615, None),
    (b"", 9, None),
    (b"00", 9, None),
    (b"07", 9, None),
    (b"7 ", 9, None),
    (b" 7", 9, None),
    (b"+7", 9, None),
    (b"-1", 9, None),
];

#[test]
fn decimal_numbers_have_no_sign_and_no_leading_zero(rt: HostRuntime) {
    for (text, max, n) in &DECIMALS {
        assert_eq!(rt; read_dec(text, *max), *n);
    }
}

/// Texts, and the number that their digits are.
#[rattlefmt::skip]
static HEXADECIMALS: [(&[u8], Option<u32>); 9] = [
    (b"0", Some(0)),
    (b"00000000", Some(0)),
    (b"1f", Some(31)),
    (b"deadbeef", Some(0xDEAD_BEEF)),
    (b"", None),
    (b"0000000a1", None),
    (b"1F", None),
    (b"0x1f", None),
    (b"1g", None),
];

#[test]
fn hexadecimal_numbers_have_one_to_eight_small_digits(rt: HostRuntime) {
    for (text, v) in &HEXADECIMALS {
        assert_eq!(rt; read_hex(text), *v);
    }
}

/// Texts, and the number from -32768 to 32767 that they are, modulo 2^16.
#[rattlefmt::skip]
static SIGNED: [(&[u8], Option<u16>); 9] = [
    (b"0", Some(0)),
    (b"32767", Some(32767)),
    (b"-1", Some(65535)),
    (b"-32768", Some(32768)),
    (b"32768", None),
    (b"-32769", None),
    (b"-0", None),
    (b"-", None),
    (b"+1", None),
];

#[test]
fn signed_numbers_have_a_sign_where_they_are_negative(rt: HostRuntime) {
    for (text, wanted) in &SIGNED {
        let read = match signed(text) {
            Ok((n, rest)) => { if rest.len() == 0 { Some(n) } else { None } }
            Err(_) => None,
        };
        assert_eq!(rt; read, *wanted);
        if let Some(n) = *wanted {
            let mut written = Text::new();
            put_signed(&mut written, n);
            assert_eq!(rt; written.as_slice(), *text);
        }
    }
}

/// Texts, and how many of their first bytes are a name.
#[rattlefmt::skip]
static NAMES: [(&[u8], Option<usize>); 7] = [
    (b"a", Some(1)),
    (b"loop1:", Some(5)),
    (b"abcdefghijklmno9", Some(16)),
    (b"abcdefghijklmno90", Some(16)),
    (b"aB", Some(1)),
    (b"9a", None),
    (b"", None),
];

#[test]
fn a_name_has_up_to_16_small_letters_and_digits(rt: HostRuntime) {
    for (text, wanted) in &NAMES {
        let read = match name(text) {
            Ok((found, _)) => Some(found.len()),
            Err(_) => None,
        };
        assert_eq!(rt; read, *wanted);
    }
}

#[test]
fn written_parts_stand_side_by_side(rt: HostRuntime) {
    let mut text = Text::new();
    put_word(&mut text, b"poke ");
    put_dec(&mut text, 2);
    put_word(&mut text, b" ");
    put_hex(&mut text, 7, 2);
    put_word(&mut text, b" ");
    put_hex(&mut text, 0x00C0_FFEE, 8);
    assert_eq!(rt; text.as_slice(), b"poke 2 07 00c0ffee".as_slice());
}

#[test]
fn a_line_holds_129_bytes_up_to_its_line_feed(rt: HostRuntime) {
    let mut lines = Lines::new();
    for _ in 0..200 {
        assert_eq!(rt; lines.feed(b'a'), Fed::Held);
    }
    assert_eq!(rt; lines.line().len(), HELD_BYTES);
    assert_eq!(rt; lines.feed(b'\n'), Fed::Ended);
    assert_eq!(rt; lines.line().len(), HELD_BYTES);
    lines.clear();
    assert_eq!(rt; lines.feed(b'\r'), Fed::Held);
    assert_eq!(rt; lines.line(), b"\r".as_slice());
}

/// Reads `n N`, with N below 100.
fn small(line: &[u8]) -> Result<u64, Stop> {
    let rest = word(line, b"n ")?;
    let (n, rest) = number(rest, 0, 99)?;
    end(rest)?;
    Ok(n)
}

/// Reads `n X`, with X two digits of base 16.
fn byte(line: &[u8]) -> Result<u64, Stop> {
    let rest = word(line, b"n x")?;
    let (n, rest) = hex(rest, 2)?;
    end(rest)?;
    Ok(n as u64)
}

/// Reads a line of either kind.
fn row(line: &[u8]) -> Result<u64, Stop> {
    either(small(line), byte(line))
}

#[test]
fn the_row_that_fits_longest_says_the_column(rt: HostRuntime) {
    assert_eq!(rt; without_remarks(b"n 42", row(b"n 42")), Ok(42));
    assert_eq!(rt; without_remarks(b"n x2a", row(b"n x2a")), Ok(42));
    assert_eq!(rt;
        without_remarks(b"n x2", row(b"n x2")),
        Err(BadLine { column: 5 })
    );
    assert_eq!(rt;
        without_remarks(b"n 421", row(b"n 421")),
        Err(BadLine { column: 5 })
    );
    assert_eq!(rt; without_remarks(b"", row(b"")), Err(BadLine { column: 1 }));
    assert_eq!(rt; with_remarks(b"", row(b"")), Ok(None));
    assert_eq!(rt; with_remarks(b"#n 1", row(b"#n 1")), Ok(None));
    assert_eq!(rt; with_remarks(b"n 7", row(b"n 7")), Ok(Some(7)));
    assert_eq!(rt;
        with_remarks(b"n  7", row(b"n  7")),
        Err(BadLine { column: 3 })
    );
}
