//! The lines of a script: what a script says happens to the machine, read and written line by line.
#![tactic(auto)]

mod entry;
mod properness;
mod ranges;
mod reading;
#[cfg(test)]
mod tests;
mod writing;

pub use entry::{Act, Entry, First};
pub use properness::proper;
pub use ranges::{BOARDS, PROCESSORS, SAVED_WORDS};
pub use reading::{read_entry, read_first};
pub use s2_text::BadLine;
pub use writing::put_entry;
