//! The assembler and the disassembler: from a text to a program, and from a program in memory to its text.
//!
//! The lines of a text are those of `s2_mnemonics`, and a program and its file those of `s2_program`. A text is
//! taken in two passes: the first finds where each label stands, the second which word each line gives.
#![tactic(auto)]

mod again;
mod building;
mod fault;
mod laws;
mod lines;
mod listing;
mod passes;
mod progress;
#[cfg(test)]
mod tests;
mod words;

pub use again::listed_file;
pub use fault::{AsmFail, AsmFault};
pub use laws::texts_have_one_meaning;
pub use lines::disassemble;
pub use listing::list;
pub use passes::assemble;
pub use s2_program::{Part, Program, to_elf};
