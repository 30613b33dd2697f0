//! The ranges of the numbers in a script. They are this project's own (`docs/FORMATS.md`).

/// How many processors there are.
pub const PROCESSORS: u8 = 3;
/// How many memory boards there are.
pub const BOARDS: u8 = 2;
/// How many saved words a processor has.
pub const SAVED_WORDS: u8 = 176;
/// How many masks there are for the ticks of the processors: one bit for each.
pub const TICK_MASKS: u8 = 8;
/// How many byte masks there are: one bit for each byte of a word.
pub const BYTE_MASKS: u8 = 16;
/// How many bits a word has.
pub const WORD_BITS: u8 = 32;
