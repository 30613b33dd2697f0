//! Names: a small letter, and up to 15 small letters and digits.

ghost use Rattle.std.specs.Prelude.{◌≡◌, ◌++◌, length};
ghost use Rattle.s2_text.specs.LineGrammar.{is_small_letter, is_name_byte};
ghost use Rattle.s2_text.specs.LineReading.{IsReading, name_from, name_reading};

use crate::stops::Stop;
use arrayvec::ArrayVec;

/// A name: a small letter, and up to 15 small letters and digits.
pub type Name = ArrayVec<u8, 16>;

/// Whether a byte is a small letter.
fn is_small_letter(byte: u8) -> bool
    ensures { result ≡ is_small_letter byte }
{
    byte >= b'a' && byte <= b'z'
}

/// Whether a byte is a small letter or a digit.
fn is_name_byte(byte: u8) -> bool
    ensures { result ≡ is_name_byte byte }
{
    (byte >= b'0' && byte <= b'9') || is_small_letter(byte)
}

/// Reads on in a name of one letter, as far as it goes.
#[tactic(auto, using(crate::proofs::LineFields::names))]
fn name_tail(start: Name, bytes: &[u8]) -> (Name, &[u8])
    requires { length start.items ≡ 1 }
    ensures name { result.0.items ≡ start.items ++ (name_from 15 bytes.now).0 }
    ensures rest { result.1.now ≡ (name_from 15 bytes.now).1 }
{
    let mut taken = start;
    let mut rest = bytes;
    for i in 0..15usize {
        let Some((first, more)) = rest.split_first() else {
            return (taken, rest);
        };
        if !is_name_byte(*first) {
            return (taken, rest);
        }
        taken.push(*first);
        rest = more;
    }
    (taken, rest)
}

/// Reads a name at the front, as long as it goes, and answers it and what is behind it.
///
/// Stops at a first byte that is no small letter.
pub fn name(bytes: &[u8]) -> Result<(Name, &[u8]), Stop>
    ensures { IsReading (λ x. (x.0.items, x.1.now)) result (name_reading bytes.now) }
{
    let Some((first, rest)) = bytes.split_first() else {
        return Err(Stop { left: 0 });
    };
    if !is_small_letter(*first) {
        return Err(Stop { left: bytes.len() });
    }
    let mut start = Name::new();
    start.push(*first);
    Ok(name_tail(start, rest))
}
