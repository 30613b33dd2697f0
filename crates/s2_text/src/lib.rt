//! Numbers and lines of text: what is read from left to right, what is written, and where a line goes wrong.
//!
//! A kind of line is data: its form is a list of parts, words and fields (`specs/LineGrammar.antt`), and a
//! table has a row for each kind (`specs/LineTables.antt`). A reader of one kind is a chain of the readers
//! of parts, `word`, `number`, `hex` and `end`; `either` joins the readers of a table's rows, and
//! `with_remarks` or `without_remarks` makes of them the answer for a line, with its column. A writer of one
//! kind is `start` and a chain of `and_word`, `and_dec` and `and_hex`.
#![tactic(auto)]

mod decimal;
mod hexadecimal;
mod lines;
mod literals;
mod names;
mod stops;
mod tables;
#[cfg(test)]
mod tests;
mod text;

pub use decimal::{below, number, put_dec, put_signed, read_dec, signed};
pub use hexadecimal::{WORD_DIGITS, hex, put_hex, read_hex};
pub use lines::{Fed, HASH, HELD_BYTES, LINE_BYTES, LINE_FEED, Lines, front};
pub use literals::{end, space, word};
pub use names::{Name, name};
pub use stops::{BadLine, Stop};
pub use tables::{either, with_remarks, without_remarks};
pub use text::{Text, and_dec, and_hex, and_word, put_word, start};
