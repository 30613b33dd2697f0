//! Readers of the parts of a line that are the same in each line of its kind.

ghost use Rattle.std.specs.Prelude.{◌≡◌, [], ◌∷◌};
ghost use Rattle.s2_text.specs.LineReading.{IsReading, word_reading, end_reading};

use crate::stops::Stop;

/// Reads a word at the front, and answers what is behind it.
///
/// Stops at the first byte that differs, or at the end.
#[tactic(auto, using(crate::proofs::LiteralWords::at_end))]
pub fn word<'a>(bytes: &'a [u8], text: &[u8]) -> Result<&'a [u8], Stop>
    ensures { IsReading (λ rest. rest.now) result (word_reading text.now bytes.now) }
{
    let mut rest = bytes;
    for expected in text {
        match rest.split_first() {
            Some((first, more)) => {
                if *first != *expected {
                    return Err(Stop { left: rest.len() });
                }
                rest = more;
            }
            None => return Err(Stop { left: 0 }),
        }
    }
    Ok(rest)
}

/// Reads a space at the front, and answers what is behind it.
pub fn space(bytes: &[u8]) -> Result<&[u8], Stop>
    ensures { IsReading (λ rest. rest.now) result (word_reading (32 ∷ []) bytes.now) }
{
    word(bytes, b" ")
}

/// Reads the end of the line. Stops where a byte stands there.
pub fn end(bytes: &[u8]) -> Result<(), Stop>
    ensures { IsReading (λ u. u) result (end_reading bytes.now) }
{
    match bytes.split_first() {
        None => Ok(()),
        Some(_) => Err(Stop { left: bytes.len() }),
    }
}
