//! Numbers as digits of base 16, `0` to `9` and `a` to `f`.

ghost use Rattle.std.specs.Prelude.{◌≡◌, ℕ, ◌+◌, ◌/◌, ◌%◌, ◌^◌, ◌<◌, ◌≤◌, ◌⊎◌, [], ◌∷◌, ◌++◌, IfOk, IfSome, IfNone, Some, None, length, if◌then◌else◌};
ghost use Rattle.s2_text.specs.declared.lines.TheConstants.{LINE_BYTES};
ghost use Rattle.s2_text.specs.declared.hexadecimal.TheConstants.{WORD_DIGITS};
ghost use Rattle.s2_text.specs.HexText.{hex_digit, hex_text, IsHexText};
ghost use Rattle.s2_text.specs.LineReading.{IsReading, hex_reading, is_hex, hex_value};

use crate::stops::Stop;
use crate::text::Text;

/// How many digits a word has.
pub const WORD_DIGITS: usize = 8;

/// The number of a digit.
fn digit_value(byte: u8) -> Option<u8>
    ensures value { result ≡ if is_hex byte then Some (hex_value byte) else None }
    ensures below { IfSome result (λ d. d < 16) }
{
    match byte {
        b'0'..=b'9' => Some(byte - b'0'),
        b'a'..=b'f' => Some(byte - b'a' + 10),
        _ => None,
    }
}

/// Reads `count` digits at the front, at most `WORD_DIGITS`, and answers their number and what is behind
/// them.
///
/// Stops at a byte that is no digit, or at the end.
#[tactic(auto, using(crate::proofs::LineFields::hexes))]
pub fn hex(bytes: &[u8], count: usize) -> Result<(u32, &[u8]), Stop>
    requires { count ≤ WORD_DIGITS }
    ensures read { IsReading (λ x. (x.0, x.1.now)) result (hex_reading count 0 bytes.now) }
    ensures below { IfOk result (λ x. x.0 < 16 ^ count) }
{
    let mut value: u32 = 0;
    let mut rest = bytes;
    for i in 0..count {
        let Some((first, more)) = rest.split_first() else {
            return Err(Stop { left: 0 });
        };
        let Some(digit) = digit_value(*first) else {
            return Err(Stop { left: rest.len() });
        };
        value = value * 16 + digit as u32;
        rest = more;
    }
    Ok((value, rest))
}

/// The number of 1 to `WORD_DIGITS` digits.
///
/// `None` exactly where the bytes are anything else.
#[tactic(auto, using(crate::proofs::WholeNumbers::whole_hex))]
pub fn read_hex(bytes: &[u8]) -> Option<u32>
    ensures found { IfSome result (λ v. IsHexText bytes.now v) }
    ensures none { IfNone result ((v : ℕ) → IsHexText bytes.now v → ⊥) }
{
    if bytes.is_empty() || bytes.len() > WORD_DIGITS {
        return None;
    }
    match hex(bytes, bytes.len()) {
        Ok((value, _)) => Some(value),
        Err(_) => None,
    }
}

/// Writes the digit of `value / unit`.
fn put_digit(into: &mut Text, value: u32, unit: u32)
    requires room { length into.old.items < LINE_BYTES }
    requires some { 0 < unit }
    ensures { into.new.items ≡ into.old.items ++ hex_digit (value / unit % 16) ∷ [] }
{
    let digit = (value / unit % 16) as u8;
    into.push(if digit < 10 {
        b'0' + digit
    } else {
        b'a' + (digit - 10)
    });
}

/// Writes two digits.
fn put_byte(into: &mut Text, value: u32)
    requires { length into.old.items + 2 ≤ LINE_BYTES }
    ensures { into.new.items ≡ into.old.items ++ hex_text 2 value }
{
    put_digit(into, value, 16);
    put_digit(into, value, 1);
}

/// Writes eight digits.
fn put_eight(into: &mut Text, value: u32)
    requires { length into.old.items + 8 ≤ LINE_BYTES }
    ensures { into.new.items ≡ into.old.items ++ hex_text 8 value }
{
    put_digit(into, value, 0x1000_0000);
    put_digit(into, value, 0x100_0000);
    put_digit(into, value, 0x10_0000);
    put_digit(into, value, 0x1_0000);
    put_digit(into, value, 0x1000);
    put_digit(into, value, 0x100);
    put_digit(into, value, 0x10);
    put_digit(into, value, 1);
}

/// Writes a byte as 2 digits, or a word as 8, with leading zeros. The number fits into the digits, and
/// there is room for them.
pub fn put_hex(into: &mut Text, v: u32, digits: usize)
    requires digits { (digits ≡ 2) ⊎ (digits ≡ WORD_DIGITS) }
    requires fits { v < 16 ^ digits }
    requires room { length into.old.items + digits ≤ LINE_BYTES }
    ensures { into.new.items ≡ into.old.items ++ hex_text digits v }
{
    if digits == 2 {
        put_byte(into, v);
    } else {
        put_eight(into, v);
    }
}
