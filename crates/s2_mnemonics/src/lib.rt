//! Lines of a program's text: what each says, and the line of each word.
#![tactic(auto)]

mod line;
mod line_readers;
mod reading;
#[cfg(test)]
mod tests;
mod writing;

pub use line::{Line, Target};
pub use reading::read_line;
pub use writing::disassemble;
