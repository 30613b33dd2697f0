//! Decimal numbers: no sign, and no leading zero but the number 0.

ghost use Rattle.std.specs.Prelude.{◌≡◌, ℕ, ◌+◌, ◌-◌, ◌*◌, ◌<◌, ◌≤◌, ◌++◌, IfOk, IfSome, IfNone, Some, None, length, if◌then◌else◌};
ghost use Rattle.std.specs.Fmt.{decimal};
ghost use Rattle.s2_text.specs.declared.lines.TheConstants.{LINE_BYTES};
ghost use Rattle.s2_text.specs.DecimalText.{IsDecimalText};
ghost use Rattle.s2_text.specs.LineReading.{IsReading, goes_on, digits_from, number_reading, signed_reading};
ghost use Rattle.s2_text.specs.LineGrammar.{signed_text};

use crate::stops::Stop;
use crate::text::Text;

/// The number that `byte` makes of `value` as its next digit, where there is one up to `high`.
fn next_value(value: u64, byte: u8, high: u64) -> Option<u64>
    ensures value { result ≡ if goes_on high value byte then Some (value * 10 + (byte - 48)) else None }
    ensures most { IfSome result (λ v. v ≤ high) }
{
    if byte < b'0' || byte > b'9' {
        return None;
    }
    let next = value as u128 * 10 + (byte - b'0') as u128;
    if next <= high as u128 {
        Some(next as u64)
    } else {
        None
    }
}

/// Reads on from `value`, as far as there are digits and the number is at most `high`.
fn digits(value: u64, bytes: &[u8], high: u64) -> (u64, &[u8])
    requires { value ≤ high }
    ensures value { result.0 ≡ (digits_from high value bytes.now).0 }
    ensures rest { result.1.now ≡ (digits_from high value bytes.now).1 }
    ensures most { result.0 ≤ high }
{
    let mut number = value;
    for (i, byte) in bytes.iter().enumerate() {
        match next_value(number, *byte, high) {
            Some(next) => number = next,
            None => return (number, &bytes[i..]),
        }
    }
    (number, &bytes[bytes.len()..])
}

/// Reads a decimal number from `low` to `high` at the front, and answers it and what is behind it.
///
/// A digit that would lead above `high` is not read. Stops at a first byte that begins no number of the
/// range, and behind a number below `low`.
pub fn number(bytes: &[u8], low: u64, high: u64) -> Result<(u64, &[u8]), Stop>
    ensures read { IsReading (λ x. (x.0, x.1.now)) result (number_reading low high bytes.now) }
    ensures most { IfOk result (λ x. x.0 ≤ high) }
{
    let Some((first, rest)) = bytes.split_first() else {
        return Err(Stop { left: 0 });
    };
    if *first == b'0' {
        return if low == 0 {
            Ok((0, rest))
        } else {
            Err(Stop { left: bytes.len() })
        };
    }
    let Some(value) = next_value(0, *first, high) else {
        return Err(Stop { left: bytes.len() });
    };
    let (value, rest) = digits(value, rest, high);
    if value < low {
        Err(Stop { left: rest.len() })
    } else {
        Ok((value, rest))
    }
}

/// Reads a decimal number below `count` at the front, and answers it and what is behind it. The count is
/// not 0.
pub fn below(bytes: &[u8], count: u8) -> Result<(u8, &[u8]), Stop>
    requires { 0 < count }
    ensures { IsReading (λ x. (x.0, x.1.now)) result (number_reading 0 (count - 1) bytes.now) }
{
    let (n, rest) = number(bytes, 0, count as u64 - 1)?;
    Ok((n as u8, rest))
}

/// The decimal number that the bytes are, where it is at most `max`.
///
/// `None` exactly where the bytes are no decimal number, or one above `max`.
#[tactic(auto, using(crate::proofs::WholeNumbers::whole))]
pub fn read_dec(bytes: &[u8], max: u64) -> Option<u64>
    ensures found { IfSome result (λ n. IsDecimalText bytes.now max n) }
    ensures none { IfNone result ((n : ℕ) → IsDecimalText bytes.now max n → ⊥) }
{
    match number(bytes, 0, max) {
        Ok((n, rest)) => { if rest.len() == 0 { Some(n) } else { None } }
        Err(_) => None,
    }
}

/// Writes the digits of a number.
#[tactic(auto, using(crate::proofs::Decimals::writing))]
fn put_digits(into: &mut Text, n: u64)
    requires { length into.old.items + length (decimal n) ≤ LINE_BYTES }
    ensures { into.new.items ≡ into.old.items ++ decimal n }
{
    if n < 10 {
        into.push(b'0' + n as u8);
        return;
    }
    put_digits(into, n / 10);
    into.push(b'0' + (n % 10) as u8);
}

/// Writes a decimal number. There is room for the 20 digits of the greatest.
#[tactic(auto, using(crate::proofs::Decimals::writing))]
pub fn put_dec(into: &mut Text, n: u64)
    requires { length into.old.items + 20 ≤ LINE_BYTES }
    ensures text { into.new.items ≡ into.old.items ++ decimal n }
    ensures size { length into.new.items ≤ length into.old.items + 20 }
{
    put_digits(into, n);
}

/// Reads a decimal number from -32768 to 32767 at the front, with `-` before a negative one, and answers it
/// modulo 2^16 and what is behind it.
pub fn signed(bytes: &[u8]) -> Result<(u16, &[u8]), Stop>
    ensures { IsReading (λ x. (x.0, x.1.now)) result (signed_reading bytes.now) }
{
    let Some((first, rest)) = bytes.split_first() else {
        return Err(Stop { left: 0 });
    };
    if *first == b'-' {
        let (n, rest) = number(rest, 1, 32768)?;
        Ok(((65536 - n) as u16, rest))
    } else {
        let (n, rest) = number(bytes, 0, 32767)?;
        Ok((n as u16, rest))
    }
}

/// Writes the number from -32768 to 32767 that is this modulo 2^16. There is room for 21 bytes.
#[tactic(auto, using(crate::proofs::Decimals::writing))]
pub fn put_signed(into: &mut Text, n: u16)
    requires { length into.old.items + 21 ≤ LINE_BYTES }
    ensures text { into.new.items ≡ into.old.items ++ signed_text n }
    ensures size { length into.new.items ≤ length into.old.items + 21 }
{
    if n < 32768 {
        put_dec(into, n as u64);
    } else {
        into.push(b'-');
        put_dec(into, 65536 - n as u64);
    }
}
