//! Texts that are written.

ghost use Rattle.std.specs.Prelude.{◌≡◌, ◌+◌, ◌^◌, ◌<◌, ◌≤◌, ◌⊎◌, [], ◌∷◌, ◌++◌, length};
ghost use Rattle.std.specs.Fmt.{decimal};
ghost use Rattle.s2_text.specs.declared.hexadecimal.TheConstants.{WORD_DIGITS};
ghost use Rattle.s2_text.specs.HexText.{hex_text};
ghost use Rattle.s2_text.specs.declared.lines.TheConstants.{LINE_BYTES};

use crate::decimal::put_dec;
use crate::hexadecimal::put_hex;
use crate::lines::LINE_BYTES;
use arrayvec::ArrayVec;

/// A line that is written, without its line feed: at most `LINE_BYTES` bytes.
pub type Text = ArrayVec<u8, LINE_BYTES>;

/// Writes a word, for which there is room.
pub fn put_word(into: &mut Text, text: &[u8])
    requires { length into.old.items + length text.now ≤ LINE_BYTES }
    ensures { into.new.items ≡ into.old.items ++ text.now }
{
    for byte in text {
        into.push(*byte);
    }
}

/// A line that begins with a word.
pub fn start(text: &[u8]) -> Text
    requires { length text.now ≤ LINE_BYTES }
    ensures { result.items ≡ text.now }
{
    let mut line = Text::new();
    put_word(&mut line, text);
    line
}

/// A line with a space and a word behind it.
#[tactic(auto, using(crate::proofs::Decimals::writing))]
pub fn and_word(line: Text, text: &[u8]) -> Text
    requires { length line.items + 1 + length text.now ≤ LINE_BYTES }
    ensures text { result.items ≡ line.items ++ 32 ∷ text.now }
    ensures size { length result.items ≡ length line.items + 1 + length text.now }
{
    let mut longer = line;
    put_word(&mut longer, b" ");
    put_word(&mut longer, text);
    longer
}

/// A line with a space and a decimal number behind it. There is room for the 20 digits of the greatest.
#[tactic(auto, using(crate::proofs::Decimals::writing))]
pub fn and_dec(line: Text, n: u64) -> Text
    requires { length line.items + 21 ≤ LINE_BYTES }
    ensures text { result.items ≡ line.items ++ 32 ∷ decimal n }
    ensures size { length result.items ≤ length line.items + 21 }
{
    let mut longer = line;
    put_word(&mut longer, b" ");
    put_dec(&mut longer, n);
    longer
}

/// A line with a space and a number of base 16 behind it, in 2 or 8 digits, into which it fits.
#[tactic(auto, using(crate::proofs::Decimals::writing))]
pub fn and_hex(line: Text, v: u32, digits: usize) -> Text
    requires digits { (digits ≡ 2) ⊎ (digits ≡ WORD_DIGITS) }
    requires fits { v < 16 ^ digits }
    requires room { length line.items + 9 ≤ LINE_BYTES }
    ensures text { result.items ≡ line.items ++ 32 ∷ hex_text digits v }
    ensures size { length result.items ≤ length line.items + 9 }
{
    let mut longer = line;
    put_word(&mut longer, b" ");
    put_hex(&mut longer, v, digits);
    longer
}
